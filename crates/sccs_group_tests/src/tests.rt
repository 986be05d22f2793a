mod files;
mod groups;
mod intents;
mod runs;
mod steps;
