//! What a client and pmcd say to each other (pmcd(1)), as values.
use pcp_base::{Desc, InDom, List, PmResult, Pmid, Text};
use profile_filter::DomainPart;

/// One PDU (PCP's PDU headers). The word that says whom it is from isn't kept.
#[derive(Drop)]
pub enum Pdu {
    /// A status: 0, or why a request isn't answered.
    Error {
        code: i32,
    },
    /// What a fetch answers (pmFetch(3)).
    Result(PmResult),
    /// The instances that a context keeps from now on (pmAddProfile(3)); `global` for those of domains without a part.
    Profile {
        context: u32,
        global: bool,
        parts: List<DomainPart>,
    },
    /// Asks for the values of metrics (pmFetch(3)).
    Fetch {
        context: u32,
        sec: u32,
        usec: u32,
        pmids: List<Pmid>,
    },
    /// Asks for the description of a metric (pmLookupDesc(3)).
    DescReq {
        pmid: Pmid,
    },
    /// The description of a metric, as `DescReq` asks (pmLookupDesc(3)).
    Desc(Desc),
    /// Asks for an instance of a domain, or by -1 for all (pmGetInDom(3)).
    InstanceReq {
        indom: InDom,
        instance: i32,
    },
    /// Instances of a domain with their names, as `InstanceReq` asks (pmGetInDom(3)).
    Instance {
        indom: InDom,
        pairs: List<(i32, Text)>,
    },
    /// A client says that it speaks this protocol.
    Creds,
    /// Identifiers of metrics (pmLookupName(3)).
    PmnsIds {
        status: i32,
        pmids: List<Pmid>,
    },
    /// Names of metrics (pmNameID(3)).
    PmnsNames {
        status: i32,
        names: List<Text>,
    },
    /// Asks for the components that continue a name (pmGetChildren(3)).
    PmnsChild {
        name: Text,
    },
    /// Asks for the names of metrics that equal or continue a name (pmTraversePMNS(3)).
    PmnsTraverse {
        name: Text,
    },
}
