//! Lists in linked nodes: each call once, many nodes, and that each item is dropped once.

use edge_store::RowList;
use std::cell::Cell;
use std::rc::Rc;
use std::test::Fail;
use symbol_base::NoMemory;

fn has_items(list: &RowList<u32>, items: &[u32]) -> Result<bool, NoMemory> {
    let copied = list.copy_items()?;
    Ok(copied.as_slice() == items)
}

#[test]
fn a_list_is_divided_and_joined_again(rt: HostRuntime) -> Result<(), NoMemory> {
    let mut list = RowList::new(rt.alloc());
    assert!(rt; list.push_back(1).is_ok());
    assert!(rt; list.push_back(2).is_ok());
    assert!(rt; list.push_back(3).is_ok());
    assert!(rt; list.len() == 3);
    let handed = list.divide(&[false, true, false]);
    assert!(rt; has_items(&list, &[1, 3])? && has_items(&handed, &[2])?);
    assert!(rt; list.len() < 4 && handed.len() < 4);
    list.append(handed);
    assert!(rt; list.len() < 9);
    assert!(rt; list.push_back(5).is_ok());
    assert!(rt; list.pop_front() == Some(1));
    assert!(rt; has_items(&list, &[3, 2, 5])?);
    Ok(())
}

const MANY: u32 = 100_000;

#[test]
fn a_long_list_divides_and_is_dropped(rt: HostRuntime) -> Result<(), Fail> {
    let mut list = RowList::new(rt.alloc());
    let mut marks = Vec::new(rt.alloc());
    for item in 0..MANY {
        assert!(rt; list.len() < MANY);
        assert!(rt; list.push_back(item).is_ok());
        marks.push(item % 2 == 1)?;
    }
    assert!(rt; marks.len() == list.len() as usize);
    let mut handed = list.divide(&marks);
    assert!(rt; list.len() == 50_000 && handed.len() == 50_000);
    assert!(rt; list.pop_front() == Some(0) && handed.pop_front() == Some(1));
    let kept = list.copy_items()?;
    assert!(rt; kept.last() == Some(&99_998));
    Ok(())
}

struct Counted {
    drops: Rc<Cell<u32>>,
}

impl Drop for Counted {
    fn drop(self) {
        let Counted { drops } = self;
        drops.set(drops.get().saturating_add(1));
    }
}

#[test]
fn each_item_of_a_dropped_list_is_dropped_once(rt: HostRuntime) -> Result<(), Fail> {
    let drops = Rc::new(rt.alloc(), Cell::new(0))?;
    let mut list = RowList::new(rt.alloc());
    for _ in 0..5 {
        assert!(rt; list.len() < 5);
        let item = Counted {
            drops: drops.clone()?,
        };
        assert!(rt; list.push_back(item).is_ok());
    }
    assert!(rt; list.len() == 5);
    let handed = list.divide(&[true, false, false, true, false]);
    assert!(rt; drops.get() == 0);
    drop(handed);
    assert!(rt; drops.get() == 2);
    drop(list.pop_front());
    assert!(rt; drops.get() == 3);
    drop(list);
    assert!(rt; drops.get() == 5);
    Ok(())
}
