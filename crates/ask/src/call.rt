// The calls and their numbers.
use crate::wire::Broken;

#[derive(Clone, Copy, PartialEq, Eq)]
pub(crate) enum Call {
    Load,
    Dump,
    Begin,
    Insert,
    SetValue,
    ChangeKey,
    RunCopy,
    Find,
    LowerBound,
    UpperBound,
    Compare,
    Child,
    Entry,
    KeyCopy,
    TrailingId,
    Space,
    Need,
    Forecast,
    Layout,
    Fit,
    Batch,
    Digest,
}

impl TryFrom<u8> for Call {
    type Error = Broken;

    fn try_from(number: u8) -> Result<Self, Broken> {
        match number {
            0 => Ok(Call::Load),
            1 => Ok(Call::Dump),
            2 => Ok(Call::Begin),
            3 => Ok(Call::Insert),
            4 => Ok(Call::SetValue),
            5 => Ok(Call::ChangeKey),
            6 => Ok(Call::RunCopy),
            7 => Ok(Call::Find),
            8 => Ok(Call::LowerBound),
            9 => Ok(Call::UpperBound),
            10 => Ok(Call::Compare),
            11 => Ok(Call::Child),
            12 => Ok(Call::Entry),
            13 => Ok(Call::KeyCopy),
            14 => Ok(Call::TrailingId),
            15 => Ok(Call::Space),
            16 => Ok(Call::Need),
            17 => Ok(Call::Forecast),
            18 => Ok(Call::Layout),
            19 => Ok(Call::Fit),
            20 => Ok(Call::Batch),
            21 => Ok(Call::Digest),
            _ => Err(Broken),
        }
    }
}
