mod groups;
mod names;
mod rows;
mod stops;
