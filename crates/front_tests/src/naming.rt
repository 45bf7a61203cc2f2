// Names that stand twice, each found by its text.
use rx_names::{BorrowedNames, Names, Table};
use std::test::Fail;

// Each name that is put behind the others, and the place at which it is found then.
const ROWS: [(&str, u32); 4] = [("user", 0), ("posts", 1), ("user", 0), ("posts", 1)];

#[test]
fn a_name_is_found_where_it_first_stands(rt: HostRuntime) -> Result<(), Fail> {
    let mut names = Names::new(rt.alloc());
    for (name, _) in ROWS {
        names.push(rt.alloc(), name)?;
    }
    assert!(rt; names.len() == 4);
    let table = Table::new(names);
    assert_eq!(rt; table.names().len(), 4);
    for (name, place) in ROWS {
        assert_eq!(rt; table.number(name), Some(place));
    }
    assert_eq!(rt; table.number("App"), None);
    Ok(())
}

#[test]
fn borrowed_names_are_taken_away_from_the_end(rt: HostRuntime) -> Result<(), Fail> {
    let mut names = BorrowedNames::new(rt.alloc());
    for (name, _) in ROWS {
        names.push(name)?;
    }
    for (left, (name, place)) in ROWS.iter().enumerate().rev() {
        names.pop();
        assert_eq!(rt; names.contains(name), (*place as usize) < left);
    }
    Ok(())
}
