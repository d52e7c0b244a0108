//! All sense data that drives and moves report, each by its name (SPC-4, SSC-4, SMC-3).
ghost use Rattle.std.specs.Prelude.{◌≡◌};
ghost use Rattle.scsi_sense.specs.Senses.{filemark_detected, attention_sense, invalid_element_address, invalid_field, invalid_parameter, parameter_list_length_error, invalid_release, beginning, destination_full, early_warning, end_of_data, deferred_write_error, keeper_failed, medium_failed, insufficient_resources, volume_overflow, medium_not_present, no_sense, incorrect_length, read_error, source_empty, store_full, invalid_operation_code, write_error};

use crate::sense_data::{Sense, SenseKey};
use scsi_attention::Attention;

impl Sense {
    /// There is nothing to report (NO ADDITIONAL SENSE INFORMATION).
    pub fn no_sense() -> Self
        ensures { result ≡ no_sense }
    {
        Sense::plain(SenseKey::NoSense, 0x00, 0x00)
    }

    /// A command block has no operation code, or an unknown one (INVALID COMMAND OPERATION CODE).
    pub fn invalid_operation_code() -> Self
        ensures { result ≡ invalid_operation_code }
    {
        Sense::plain(SenseKey::IllegalRequest, 0x20, 0x00)
    }

    /// A command block has a wrong length or a wrong field, or a wrong number of bytes was sent with it (INVALID FIELD
    /// IN CDB).
    pub fn invalid_field() -> Self
        ensures { result ≡ invalid_field }
    {
        Sense::plain(SenseKey::IllegalRequest, 0x24, 0x00)
    }

    /// A parameter list has a wrong length (PARAMETER LIST LENGTH ERROR).
    pub fn parameter_list_length_error() -> Self
        ensures { result ≡ parameter_list_length_error }
    {
        Sense::plain(SenseKey::IllegalRequest, 0x1a, 0x00)
    }

    /// A field of a parameter list is wrong (INVALID FIELD IN PARAMETER LIST).
    pub fn invalid_parameter() -> Self
        ensures { result ≡ invalid_parameter }
    {
        Sense::plain(SenseKey::IllegalRequest, 0x26, 0x00)
    }

    /// A reservation is released under another type than its own (INVALID RELEASE OF
    /// PERSISTENT RESERVATION).
    pub fn invalid_release() -> Self
        ensures { result ≡ invalid_release }
    {
        Sense::plain(SenseKey::IllegalRequest, 0x26, 0x04)
    }

    /// An element address is neither a slot's nor a drive's (INVALID ELEMENT ADDRESS).
    pub fn invalid_element_address() -> Self
        ensures { result ≡ invalid_element_address }
    {
        Sense::plain(SenseKey::IllegalRequest, 0x21, 0x01)
    }

    /// The destination of a move holds a cartridge (MEDIUM DESTINATION ELEMENT FULL).
    pub fn destination_full() -> Self
        ensures { result ≡ destination_full }
    {
        Sense::plain(SenseKey::IllegalRequest, 0x3b, 0x0d)
    }

    /// The source of a move holds no cartridge (MEDIUM SOURCE ELEMENT EMPTY).
    pub fn source_empty() -> Self
        ensures { result ≡ source_empty }
    {
        Sense::plain(SenseKey::IllegalRequest, 0x3b, 0x0e)
    }

    /// A reservation store is full, and nothing changed (INSUFFICIENT REGISTRATION
    /// RESOURCES).
    pub fn store_full() -> Self
        ensures { result ≡ store_full }
    {
        Sense::plain(SenseKey::IllegalRequest, 0x55, 0x04)
    }

    /// No cartridge is loaded (MEDIUM NOT PRESENT).
    pub fn medium_not_present() -> Self
        ensures { result ≡ medium_not_present }
    {
        Sense::plain(SenseKey::NotReady, 0x3a, 0x00)
    }

    /// The medium has failed, and stays failed until it is unloaded and loaded again (INTERNAL TARGET FAILURE).
    pub fn medium_failed() -> Self
        ensures { result ≡ medium_failed }
    {
        Sense::plain(SenseKey::HardwareError, 0x44, 0x00)
    }

    /// The keeper, which saves the reservations, has failed, and stays failed until a restart. This is reported like a
    /// failed medium (INTERNAL TARGET FAILURE, own).
    pub fn keeper_failed() -> Self
        ensures { result ≡ keeper_failed }
    {
        Sense::medium_failed()
    }

    /// A device failed while a command stored pending changes (WRITE ERROR).
    pub fn write_error() -> Self
        ensures { result ≡ write_error }
    {
        Sense::plain(SenseKey::MediumError, 0x0c, 0x00)
    }

    /// A device failed while pending changes were stored between two commands: a
    /// deferred error (WRITE ERROR).
    pub fn deferred_write_error() -> Self
        ensures { result ≡ deferred_write_error }
    {
        Sense {
            deferred: true,
            ..Sense::plain(SenseKey::MediumError, 0x0c, 0x00)
        }
    }

    /// A device failed while a block was read or a cartridge was loaded, or a side was refused; a side is the bytes of
    /// one of the cartridge's files (UNRECOVERED READ ERROR).
    pub fn read_error() -> Self
        ensures { result ≡ read_error }
    {
        Sense::plain(SenseKey::MediumError, 0x11, 0x00)
    }

    /// Memory ran out (INSUFFICIENT RESOURCES).
    pub fn insufficient_resources() -> Self
        ensures { result ≡ insufficient_resources }
    {
        Sense::plain(SenseKey::AbortedCommand, 0x55, 0x03)
    }

    /// The data were written, and the partition is nearly full (END-OF-PARTITION/MEDIUM DETECTED).
    pub fn early_warning() -> Self
        ensures { result ≡ early_warning }
    {
        Sense {
            end_of_medium: true,
            information: Some(0),
            ..Sense::plain(SenseKey::NoSense, 0x00, 0x02)
        }
    }

    /// The data do not fit, and nothing changed (END-OF-PARTITION/MEDIUM DETECTED). `residue` is how many bytes or
    /// filemarks were not written; None where this is not reported.
    pub fn volume_overflow(residue: Option<u32>) -> Self
        ensures { result ≡ volume_overflow residue }
    {
        Sense {
            end_of_medium: true,
            information: residue,
            ..Sense::plain(SenseKey::VolumeOverflow, 0x00, 0x02)
        }
    }

    /// The end of data was met (END-OF-DATA DETECTED). `residue` is how many bytes were not read, or how many blocks or
    /// filemarks were not passed; None where this is not reported.
    pub fn end_of_data(residue: Option<u32>) -> Self
        ensures { result ≡ end_of_data residue }
    {
        Sense {
            information: residue,
            ..Sense::plain(SenseKey::BlankCheck, 0x00, 0x05)
        }
    }

    /// A filemark was met (FILEMARK DETECTED). `residue` is how many bytes were not read, or how many blocks were not
    /// passed.
    pub fn filemark_detected(residue: u32) -> Self
        ensures { result ≡ filemark_detected residue }
    {
        Sense {
            filemark: true,
            information: Some(residue),
            ..Sense::plain(SenseKey::NoSense, 0x00, 0x01)
        }
    }

    /// The beginning of a partition was met (BEGINNING-OF-PARTITION/MEDIUM DETECTED). `residue` is how many blocks or
    /// filemarks were not passed.
    pub fn beginning(residue: u32) -> Self
        ensures { result ≡ beginning residue }
    {
        Sense {
            end_of_medium: true,
            information: Some(residue),
            ..Sense::plain(SenseKey::NoSense, 0x00, 0x04)
        }
    }

    /// A block has another length than the READ asked for (NO ADDITIONAL SENSE INFORMATION). `residue` is the length
    /// asked for minus that of the block, in bytes, in 32-bit two's complement.
    pub fn incorrect_length(residue: u32) -> Self
        ensures { result ≡ incorrect_length residue }
    {
        Sense {
            incorrect_length: true,
            information: Some(residue),
            ..Sense::plain(SenseKey::NoSense, 0x00, 0x00)
        }
    }

    /// A unit attention condition is reported. Each condition has its own pair of code and qualifier.
    pub fn attention(attention: Attention) -> Self
        ensures { result ≡ attention_sense attention }
    {
        let (code, qualifier) = match attention {
            Attention::PowerOn => (0x29, 0x00),
            Attention::MediumChanged => (0x28, 0x00),
            Attention::ReservationsPreempted => (0x2a, 0x03),
            Attention::RegistrationsPreempted => (0x2a, 0x05),
            Attention::ReservationsReleased => (0x2a, 0x04),
            Attention::ModeChanged => (0x2a, 0x01),
        };
        Sense::plain(SenseKey::UnitAttention, code, qualifier)
    }
}
