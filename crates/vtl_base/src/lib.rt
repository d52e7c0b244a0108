//! Numbers, names, bytes and limits that every crate of the library shares.
#![tactic(auto)]

pub mod barcode;
pub mod bytes;
pub mod faults;
pub mod laws;
pub mod layout;
pub mod limits;
pub mod numbers;
pub mod space_codes;
pub mod steps;

pub use barcode::{BadBarcode, Barcode};
pub use bytes::Bytes;
pub use faults::{DevFault, NoMemory};
pub use numbers::{DriveNo, Nexus, ObjNo, PartNo, SlotNo};
pub use space_codes::SpaceCode;
pub use steps::Steps;
