//! How a home serves its base devices: which piece waits first at a device, whether the device can
//! serve it, and its serving; and which waits last, and its leaving.
#![tactic(auto)]

mod serving;

pub use serving::{
    Given, can_serve, drop_last, first_waiting, last_waiting, serve, serve_as_given,
};
