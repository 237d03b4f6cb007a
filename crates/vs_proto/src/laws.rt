ghost use Rattle.std.specs.Prelude.{true};
ghost use Rattle.vs_proto.specs.Frames.{
  NoneBegins,
  SpellsEventsOnce,
  SpellsOnce,
};
ghost use Rattle.vs_proto.specs.Shapes.{IsReadAgain};
ghost use Rattle.vs_proto.specs.Tables.{
  event,
  field,
  field_event,
  filter,
  flags,
  journal,
  keyspace_shard,
  request,
  response,
  row,
  row_change,
  row_event,
  rule,
  shard_gtid,
  table_key,
  vgtid,
};

/// Each message is read as an equal value once it is written.
#[tactic(auto, using(crate::proofs::MessageLaws::request_again, crate::proofs::MessageLaws::filter_again, crate::proofs::MessageLaws::rule_again, crate::proofs::MessageLaws::flags_again, crate::proofs::MessageLaws::response_again, crate::proofs::MessageLaws::event_again, crate::proofs::MessageLaws::row_event_again, crate::proofs::MessageLaws::row_change_again, crate::proofs::MessageLaws::field_event_again, crate::proofs::MessageLaws::field_again, crate::proofs::MessageLaws::row_again, crate::proofs::MessageLaws::vgtid_again, crate::proofs::MessageLaws::shard_gtid_again, crate::proofs::MessageLaws::table_key_again, crate::proofs::MessageLaws::keyspace_shard_again, crate::proofs::MessageLaws::journal_again))]
pub fn law_messages()
    ensures of_request { IsReadAgain (request true) }
    ensures of_filter { IsReadAgain (filter true) }
    ensures of_rule { IsReadAgain (rule true) }
    ensures of_flags { IsReadAgain (flags true) }
    ensures of_response { IsReadAgain (response true) }
    ensures of_event { IsReadAgain (event true) }
    ensures of_row_event { IsReadAgain (row_event true) }
    ensures of_row_change { IsReadAgain (row_change true) }
    ensures of_field_event { IsReadAgain (field_event true) }
    ensures of_field { IsReadAgain (field true) }
    ensures of_row { IsReadAgain (row true) }
    ensures of_vgtid { IsReadAgain (vgtid true) }
    ensures of_shard_gtid { IsReadAgain (shard_gtid true) }
    ensures of_table_key { IsReadAgain (table_key true) }
    ensures of_keyspace_shard { IsReadAgain (keyspace_shard true) }
    ensures of_journal { IsReadAgain (journal true) }
{}

/// Lists of events with equal bytes are equal, and so are lists of frames; no frame's bytes begin
/// another's.
#[tactic(auto, using(crate::proofs::FrameLaws::spells_events_once, crate::proofs::FrameLaws::spells_once, crate::proofs::FrameLaws::none_begins))]
pub fn law_spelling()
    ensures events { SpellsEventsOnce }
    ensures frames { SpellsOnce }
    ensures none_begins { NoneBegins }
{}
