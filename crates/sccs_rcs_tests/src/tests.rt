mod files;
mod pieces;
