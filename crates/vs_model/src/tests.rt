use crate::{
    law_copies, law_due, law_final, law_frames, law_lane, law_resume, law_shards, law_steps,
};

#[test]
fn laws_are_called() {
    law_steps();
    law_resume();
    law_final();
    law_frames();
    law_due();
    law_lane();
    law_copies();
    law_shards();
}
