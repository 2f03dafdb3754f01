// What a case asks for: a call of the library, or the program `exact` on its input.
#[derive(Clone, Copy)]
pub(crate) enum Kind {
    Check,
    FirstFit,
    MetaOffset,
    Exact,
    ReadTable,
    WritePlan,
    ReadPlan,
    Report,
    Ceiling,
    Input,
    PlanTexts,
    OneSlot,
}

// A number that names no kind.
#[derive(Clone, Copy)]
pub(crate) struct UnknownKind;

impl TryFrom<u64> for Kind {
    type Error = UnknownKind;

    fn try_from(number: u64) -> Result<Kind, UnknownKind> {
        match number {
            1 => Ok(Kind::Check),
            2 => Ok(Kind::FirstFit),
            3 => Ok(Kind::MetaOffset),
            4 => Ok(Kind::Exact),
            5 => Ok(Kind::ReadTable),
            6 => Ok(Kind::WritePlan),
            7 => Ok(Kind::ReadPlan),
            8 => Ok(Kind::Report),
            9 => Ok(Kind::Ceiling),
            11 => Ok(Kind::Input),
            12 => Ok(Kind::PlanTexts),
            13 => Ok(Kind::OneSlot),
            _ => Err(UnknownKind),
        }
    }
}
