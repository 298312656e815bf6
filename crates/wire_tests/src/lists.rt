//! A list of items: each call once, at numbers, and what is written through the slice.
ghost use Rattle.std.specs.Prelude.{◌≡◌, ◌<◌, length, slice_set};

use item_list::Items;
use std::test::Fail;

#[test]
fn a_vector_goes_in_and_comes_back(rt: HostRuntime) -> Result<(), Fail> {
    let mut items = Items::from(vec![in rt.alloc(); 3u32, 5, 8]?);
    assert!(rt; items.len() == 3);
    assert!(rt; !items.is_empty());
    for item in items.as_mut_slice() {
        *item ^= 1;
    }
    assert!(rt; items.as_slice() == [2, 4, 9].as_slice());
    let back = items.into_vec();
    assert!(rt; back.as_slice() == [2, 4, 9].as_slice());
    Ok(())
}

#[test]
fn an_empty_vector_has_no_item(rt: HostRuntime) {
    let items: Items<u8> = Items::new(Vec::new(rt.alloc()));
    assert!(rt; items.is_empty());
}

fn set_first(items: &mut Items<u8>, item: u8)
    requires { 0 < length items.old }
    ensures { items.new ≡ slice_set items.old 0 item }
{
    items.as_mut_slice()[0] = item;
}
