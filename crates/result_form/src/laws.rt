//! What holds between writing and reading.
ghost use Rattle.std.specs.Prelude.{◌≤◌};
ghost use Rattle.pcp_base.specs.declared.result.PmResult.{PmResult as Answer};
ghost use Rattle.result_form.specs.Laws.{OneFault, OneReading};
ghost use Rattle.pcp_model.specs.Payload.{ResultInRange, IsPayload, payload, payload_length};

/// What `encode` writes is a payload of that result, so `decode` answers this result for it, unless memory runs out.
pub fn written_is_read()
    ensures { (r : Answer) → ResultInRange r → payload_length r ≤ 16777216 → IsPayload (payload r) r }
{}

/// Bytes are the payload of a result, or they have one fault, the first.
pub fn faults_come_once()
    ensures { OneFault }
{}

/// Bytes are read as a result exactly where they are its payload, and they are the payload of one result at most. So what
/// `ResultView` shows of a payload is what `decode` makes of it.
pub fn payloads_are_read_one_way()
    ensures { OneReading }
{}
