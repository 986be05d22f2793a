mod commands;
mod draws;
mod runs;
mod sessions;
mod steady;
mod texts;
