//! What comes out of the four pairings of serial and parallel ends. The helpers go over any lanes; the tests run them on those
//! of one thread and on those between threads.
mod between;
mod cases;
mod cut;
mod jobs;
mod made;
mod numbered;
mod pairing;
mod pipe;
mod piped;
mod plan;
mod scarce;
mod through;
mod tokens;
mod trial;
mod want;
