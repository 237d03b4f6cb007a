use super::*;
use std::alloc::Global;
use std::test::Fail;

fn text(alloc: Global, bytes: &[u8]) -> Result<Text, OutOfMemory> {
    Text::from_bytes(alloc, bytes)
}

#[test]
fn texts_and_lists_keep_what_they_are_given(rt: HostRuntime) -> Result<(), Fail> {
    let alloc = rt.alloc();
    let ab = text(alloc, b"ab")?;
    assert_eq!(rt; ab.as_bytes(), b"ab".as_slice());
    assert!(rt; ab.copy(alloc)? == ab);
    assert_eq!(rt; Text::new(alloc).as_bytes().len(), 0);
    let mut vector = Vec::new(alloc);
    vector.extend_from_slice(&[b'x'; 22])?;
    let mut long = Text::from_vec(vector);
    long.append(ab.as_bytes())?;
    assert_eq!(rt; long.as_bytes(), b"xxxxxxxxxxxxxxxxxxxxxxab".as_slice());
    let mut list = List::new(alloc);
    list.push(7usize)?;
    assert_eq!(rt; list.copy(alloc)?.as_slice(), [7].as_slice());
    assert_eq!(rt; List::from_vec(list.into_vec()).as_slice(), [7].as_slice());
    Ok(())
}

#[test]
fn names_and_gtids_keep_their_limits(rt: HostRuntime) -> Result<(), Fail> {
    let alloc = rt.alloc();
    let long = [b'k'; 65];
    assert!(rt; ShardName::new(text(alloc, &long)?, text(alloc, b"0")?).is_none());
    let name = ShardName::new(text(alloc, b"c")?, text(alloc, b"-80")?).expect(&rt, "a name");
    assert!(rt; name.copy(alloc)?.is_same(&name));
    for (number, is_lawful) in [
        (0u64, false),
        (1, true),
        (9_223_372_036_854_775_806, true),
        (9_223_372_036_854_775_807, false),
    ] {
        assert_eq!(rt; Gtid::new([7; 16], number).is_some(), is_lawful);
    }
    let gtid = Gtid::new([7; 16], 1).expect(&rt, "a GTID");
    assert!(rt; gtid.is_same(&gtid));
    Ok(())
}

#[test]
fn cells_have_sizes(rt: HostRuntime) -> Result<(), Fail> {
    let alloc = rt.alloc();
    let mut image = Image::new(alloc);
    image.push(Cell::Null)?;
    assert_eq!(rt; image.cells().len(), 1);
    assert_eq!(rt; image.cells()[0].size(), 0);
    assert_eq!(rt; Cell::Bytes(text(alloc, b"5")?).copy(alloc)?.size(), 1);
    let key = LastKey::new(text(alloc, b"t")?, image.copy(alloc)?).expect(&rt, "a last key");
    assert_eq!(rt; key.copy(alloc)?.key.cells().len(), 1);
    Ok(())
}

#[test]
fn changes_and_tables_are_copied(rt: HostRuntime) -> Result<(), Fail> {
    let alloc = rt.alloc();
    let change = Change {
        table: text(alloc, b"t")?,
        before: None,
        after: Some(Image::new(alloc)),
    };
    assert!(rt; change.copy(alloc)?.after.is_some());
    let table = Table {
        name: text(alloc, b"t")?,
        columns: List::new(alloc),
        key: List::new(alloc),
    };
    assert_eq!(rt; table.copy(alloc)?.name.as_bytes(), b"t".as_slice());
    Ok(())
}

#[test]
fn whole_numbers_are_read_by_their_kind(rt: HostRuntime) {
    let tiny = ColumnKind::TinyInt { unsigned: false };
    assert!(rt; is_whole(tiny));
    assert_eq!(rt; number_of(tiny, b"-128"), Some(-128));
    assert_eq!(rt; number_of(tiny, b"128"), None);
    assert_eq!(rt; digits_value(b"0042"), Some(42));
    assert!(rt; are_digits(b"42") && !is_digit(b'a'));
}

#[test]
fn rules_are_copied(rt: HostRuntime) -> Result<(), Fail> {
    let alloc = rt.alloc();
    let rule = RuleText {
        pattern: text(alloc, b"/.*")?,
        filter: Text::new(alloc),
    };
    assert!(rt; rule.copy(alloc)? == rule);
    Ok(())
}
