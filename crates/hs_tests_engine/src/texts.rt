//! Texts, lists, and the first fault of a list.

use hs_expr::{Exact, List, Text, check_each, fault_if};
use std::test::Fail;

#[test]
fn a_text_gives_its_string_back(rt: HostRuntime) -> Result<(), Fail> {
    let text = Text::from_str(rt.alloc(), "édge")?;
    assert_eq!(rt; text.len(), 5);
    assert!(rt; !text.is_empty());
    assert!(rt; text.is(&text.clone()?));
    assert!(rt; text.into_string().as_str() == "édge");
    Ok(())
}

#[test]
fn a_list_gives_its_vector_back(rt: HostRuntime) -> Result<(), Fail> {
    let mut list: List<u32> = List::new(rt.alloc());
    assert!(rt; list.is_empty());
    list.push(3)?;
    list.push(5)?;
    assert_eq!(rt; list.len(), 2);
    assert_eq!(rt; list.get(1), Some(&5));
    assert!(rt; list.is(&list.clone()?));
    assert_eq!(rt; list.into_vec().as_slice(), [3, 5].as_slice());
    Ok(())
}

#[test]
fn the_first_fault_of_a_list_is_told(rt: HostRuntime) {
    let below_four = |place: usize, number: &u32| fault_if(*number >= 4, place);
    assert_eq!(rt; check_each(&[1, 3], &below_four), Ok(()));
    assert_eq!(rt; check_each(&[1, 4, 9], &below_four), Err(1));
}
