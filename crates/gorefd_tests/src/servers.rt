//! Tests of the book behind a server: of Jobs, and of its seats.
mod jobs;
mod learning;
mod seats;
