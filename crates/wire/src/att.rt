// The error codes of ATT that the server answers.
ghost use Rattle.std.specs.Prelude.{◌≡◌, ℕ, refl};
ghost use Rattle.wire.specs.Att.{code_of};
ghost use Rattle.wire.specs.declared.att.AttError.{AttError};

// Why a request is not done, by Core's names (Vol 3 Part F 3.4.1.1). The Rust has them as numbers.
#[derive(Clone, Copy, Debug, PartialEq, Eq)]
pub enum AttError {
    InvalidHandle,
    ReadNotPermitted,
    WriteNotPermitted,
    InvalidPdu,
    InsufficientAuthentication,
    InvalidOffset,
    PrepareQueueFull,
    AttributeNotFound,
    InvalidAttributeValueLength,
    InsufficientEncryption,
}

impl From<AttError> for u8 {
    ghost from_gives = { λ e code. code ≡ code_of e };

    // The code that goes over the wire.
    fn from(e: AttError) -> u8 {
        match e {
            AttError::InvalidHandle => 0x01,
            AttError::ReadNotPermitted => 0x02,
            AttError::WriteNotPermitted => 0x03,
            AttError::InvalidPdu => 0x04,
            AttError::InsufficientAuthentication => 0x05,
            AttError::InvalidOffset => 0x07,
            AttError::PrepareQueueFull => 0x09,
            AttError::AttributeNotFound => 0x0A,
            AttError::InvalidAttributeValueLength => 0x0D,
            AttError::InsufficientEncryption => 0x0F,
        }
    }
}

// What says a code: an error by its name, or any byte.
pub trait Code: Copy {
    ghost code: { Self → ℕ };

    ghost made: { AttError → Self };

    // What says an error's code.
    fn of(e: AttError) -> Self
        ensures { result ≡ made e };

    // The byte that goes over the wire.
    fn to_byte(self) -> u8
        ensures { result ≡ code self };

    ghost same: { (e : AttError) → code (made e) ≡ code_of e };
}

impl Code for AttError {
    ghost code = { code_of };

    ghost made = { λ e. e };

    ghost same = { λ e. refl };

    fn of(error: AttError) -> AttError {
        error
    }

    fn to_byte(self) -> u8 {
        u8::from(self)
    }
}

impl Code for u8 {
    ghost code = { λ c. c };

    ghost made = { code_of };

    ghost same = { λ e. refl };

    fn of(e: AttError) -> u8 {
        u8::from(e)
    }

    fn to_byte(self) -> u8 {
        self
    }
}
