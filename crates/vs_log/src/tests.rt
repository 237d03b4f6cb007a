use crate::{
    law_base, law_beginnings, law_changes, law_distinct, law_entries, law_growth, law_longest,
    law_meaning, law_places, law_steps,
};

#[test]
fn laws_are_called() {
    law_beginnings::<u8>();
    law_meaning::<u8>();
    law_growth::<u8>();
    law_longest::<u8>();
    law_distinct::<u8>();
    law_base::<u8>();
    law_places::<u8>();
    law_steps::<u8>();
    law_entries::<u8>();
    law_changes();
}
