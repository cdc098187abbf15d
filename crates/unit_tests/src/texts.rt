use fx_base::{Copies, NoMemory, Seq, Text, Value};
use std::alloc::Global;
use std::test::Fail;

fn equals_its_copies(alloc: Global, text: &Text) -> Result<bool, NoMemory> {
    Ok(text.clone()? == *text && text.copy(alloc)? == *text)
}

#[test]
fn a_text_has_its_bytes(rt: HostRuntime) -> Result<(), Fail> {
    let text = Text::new(rt.alloc(), "ab")?;
    assert_eq!(rt; text.as_str(), "ab");
    assert!(rt; equals_its_copies(rt.alloc(), &text)?);
    Ok(())
}

pub(crate) fn values(alloc: Global) -> Result<Seq<Value>, NoMemory> {
    let text = Value::Text(Text::new(alloc, "ab")?);
    Ok(Seq::from_vec(vec![in alloc; Value::Int(3), Value::Bool(true), text]?))
}

#[test]
fn a_copy_of_a_list_has_its_elements(rt: HostRuntime) -> Result<(), Fail> {
    let values = values(rt.alloc())?;
    assert!(rt; values.copy(rt.alloc())? == values);
    Ok(())
}
