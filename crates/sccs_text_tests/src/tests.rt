mod keys;
mod printing;
mod samples;
mod script;
mod splicer;
mod texts;
mod words;
