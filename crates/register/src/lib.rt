//! Which user a sender is, and which user a carrier code belongs to.

#![tactic(auto)]

mod keys;
mod meaning;
mod rows;
mod user;
mod user_register;

pub use keys::{Address, Capitals, CarrierCode, Client, NotCapitals};
pub use meaning::Register;
pub use rows::Full;
pub use user::{NoUser, User};
pub use user_register::{ArincRegister, CdmnetRegister, UserRegister};
