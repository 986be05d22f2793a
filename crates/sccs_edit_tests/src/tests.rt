mod front;
mod pending;
