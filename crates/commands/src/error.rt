// Why a command is refused: the error codes (Core Vol 1 Part F section 1.3) that commands give.
ghost use Rattle.std.specs.Prelude.{◌≡◌};
ghost use Rattle.commands.specs.Refused.{error_octet};

use hci::status;

#[derive(Clone, Copy)]
pub enum ErrorCode {
    UnknownConnection,
    MemoryCapacityExceeded,
    CommandDisallowed,
    UnsupportedFeature,
    InvalidParameters,
}

// The octet that the host gets.
impl From<ErrorCode> for u8 {
    ghost from_gives = { λ code octet. octet ≡ error_octet code };

    fn from(code: ErrorCode) -> u8 {
        match code {
            ErrorCode::UnknownConnection => status::UNKNOWN_CONNECTION,
            ErrorCode::MemoryCapacityExceeded => status::MEMORY_CAPACITY_EXCEEDED,
            ErrorCode::CommandDisallowed => status::COMMAND_DISALLOWED,
            ErrorCode::UnsupportedFeature => status::UNSUPPORTED_FEATURE,
            ErrorCode::InvalidParameters => status::INVALID_PARAMETERS,
        }
    }
}
