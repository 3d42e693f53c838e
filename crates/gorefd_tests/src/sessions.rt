//! Tests of sessions over a book of their own.
mod devices;
mod limits;
