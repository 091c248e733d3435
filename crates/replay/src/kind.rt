//! The numbers of the kinds of calls.

/// What a record of a journal asks for.
#[derive(Clone, Copy)]
pub(crate) enum CallKind {
    Begin,
    Declare,
    Open,
    Store,
    Strike,
    Amend,
    Rule,
    Consent,
    Combine,
    Ask,
}

/// A number that is of no call.
#[derive(Clone, Copy)]
pub(crate) struct UnknownCall;

impl TryFrom<u16> for CallKind {
    type Error = UnknownCall;

    fn try_from(number: u16) -> Result<CallKind, UnknownCall> {
        match number {
            0x30 => Ok(CallKind::Begin),
            0x31 => Ok(CallKind::Declare),
            0x32 => Ok(CallKind::Open),
            0x33 => Ok(CallKind::Store),
            0x34 => Ok(CallKind::Strike),
            0x35 => Ok(CallKind::Amend),
            0x36 => Ok(CallKind::Rule),
            0x37 => Ok(CallKind::Consent),
            0x38 => Ok(CallKind::Combine),
            0x39 => Ok(CallKind::Ask),
            _ => Err(UnknownCall),
        }
    }
}
