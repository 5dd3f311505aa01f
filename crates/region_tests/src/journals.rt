//! The laws of journals at the toy layout.

use crate::Slate;
use region_core as laws;
use std::test::Fail;

#[test]
fn the_laws_hold_of_the_toy_layout(_rt: HostRuntime) -> Result<(), Fail> {
    laws::generations_rise::<Slate>();
    laws::one_form_between::<Slate>();
    laws::one_form_each::<Slate>();
    laws::words_are_an_image::<Slate>();
    laws::gate_counts::<Slate>();
    laws::one_pass_changes::<Slate>();
    laws::changes_alone::<Slate>();
    laws::no_change_begins::<Slate>();
    laws::agreement_shows::<Slate>();
    laws::shown_words_are_an_image::<Slate>();
    laws::padding_keeps_the_form::<Slate>();
    laws::legal_runs::<Slate>();
    laws::stopped_is_illegal::<Slate>();
    laws::words_are_replayed();
    Ok(())
}
