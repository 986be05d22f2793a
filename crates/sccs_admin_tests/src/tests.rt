mod disks;
mod imports;
mod new_files;
mod new_rules;
mod stops;
