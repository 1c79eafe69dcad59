// Text, and names in a list.
use obd_base::{Items, Name, NoMemory, Text};
use std::alloc::Global;
use std::test::Fail;

fn put_all(text: &mut Text) -> Result<(), NoMemory> {
    text.put("n ")?;
    text.put_number(u64::MAX)?;
    text.put(" ")?;
    text.put_signed(i64::MIN)?;
    text.put_bytes(b"\n")
}

#[test]
fn words_numbers_and_bytes_are_put(rt: HostRuntime) -> Result<(), Fail> {
    let mut text = Text::new(rt.alloc());
    put_all(&mut text)?;
    assert_eq!(rt;
        text.bytes(),
        b"n 18446744073709551615 -9223372036854775808\n".as_slice()
    );
    Ok(())
}

fn put_name(alloc: Global, names: &mut Items<Name>, text: &str) -> Result<(), NoMemory> {
    names.push(Name::from_str(alloc, text)?)
}

#[test]
fn names_and_items_are_kept(rt: HostRuntime) -> Result<(), Fail> {
    let mut names = Items::new(rt.alloc());
    put_name(rt.alloc(), &mut names, "page_1")?;
    let [name] = names.as_slice() else {
        return Err(Fail::new("not one name"));
    };
    assert_eq!(rt; name.as_str(), "page_1");
    Ok(())
}
