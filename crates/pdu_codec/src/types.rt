//! The types of PDUs, by their numbers.
ghost use Rattle.std.specs.Prelude.{◌≡◌};
ghost use Rattle.pdu_codec.specs.Types.{type_of_code, code_of_type};

/// The type of a PDU (PCP's PDU headers).
#[derive(Clone, Copy)]
pub enum PduType {
    Error,
    Result,
    Profile,
    Fetch,
    DescReq,
    Desc,
    InstanceReq,
    Instance,
    Creds,
    PmnsIds,
    PmnsNames,
    PmnsChild,
    PmnsTraverse,
}

/// The type with this number; `None` exactly where no PDU has it.
pub fn type_of_code(code: u32) -> Option<PduType>
    ensures { result ≡ type_of_code code }
{
    match code {
        0x7000 => Some(PduType::Error),
        0x7001 => Some(PduType::Result),
        0x7002 => Some(PduType::Profile),
        0x7003 => Some(PduType::Fetch),
        0x7004 => Some(PduType::DescReq),
        0x7005 => Some(PduType::Desc),
        0x7006 => Some(PduType::InstanceReq),
        0x7007 => Some(PduType::Instance),
        0x700c => Some(PduType::Creds),
        0x700d => Some(PduType::PmnsIds),
        0x700e => Some(PduType::PmnsNames),
        0x700f => Some(PduType::PmnsChild),
        0x7010 => Some(PduType::PmnsTraverse),
        _ => None,
    }
}
