mod altered_files;
mod changes;
mod checked_files;
mod removals;
