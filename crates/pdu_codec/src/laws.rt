//! What holds of PDUs and their faults.
ghost use Rattle.pdu_codec.specs.Laws.{OneFault, NoPduBeginsAnother, WrittenIsRead, NoResultGoesOn, SomeResultGoesSoFar};

/// Bytes are a PDU, or they have one fault.
pub fn faults_come_once()
    ensures { OneFault }
{}

/// No PDU is the beginning of another one.
pub fn no_pdu_begins_another()
    ensures { NoPduBeginsAnother }
{}

/// What `encode` writes of a PDU, `decode` reads as that PDU, unless memory runs out.
pub fn written_is_read()
    ensures { WrittenIsRead }
{}

/// No result goes on behind the byte at which bytes stop being like one.
pub fn no_result_goes_on()
    ensures { NoResultGoesOn }
{}

/// Some result begins with what stands before that byte.
pub fn some_result_goes_so_far()
    ensures { SomeResultGoesSoFar }
{}
