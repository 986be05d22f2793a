mod body;
mod flags;
mod records;
mod sets;
mod sid;
mod table;
mod weave;
