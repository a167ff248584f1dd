//! Each call that may want memory, once where there is enough, and a tree whose children stand in a list.
use ds2_base::{List, Name, OutOfMemory, Stop, Text};
use std::alloc::Global;

#[derive(Drop, PartialEq, Eq, Hash)]
enum Tree {
    Leaf(u8),
    Node(List<Tree>),
}

fn small_tree(alloc: Global) -> Result<Tree, OutOfMemory> {
    let mut children = List::new(alloc);
    children.push(Tree::Leaf(1))?;
    children.push(Tree::Node(List::new(alloc)))?;
    Ok(Tree::Node(children))
}

fn lists(alloc: Global) -> Result<bool, OutOfMemory> {
    let mut list = List::from_slice(alloc, &[1u32, 2])?;
    list.reserve(4)?;
    list.push_sparing(3)?;
    list.append(&[4, 5])?;
    list.append_list(List::from_slice(alloc, &[6])?)?;
    Ok(list.copy(alloc)? == list && list.as_slice() == [1, 2, 3, 4, 5, 6].as_slice())
}

fn texts(alloc: Global) -> Result<bool, OutOfMemory> {
    let text = Text::of(alloc, "Käse")?;
    Ok(Text::from_bytes(alloc, List::from_slice(alloc, text.as_bytes())?)? == Some(text))
}

// A text of more than 22 bytes, made of its bytes and of its front with blanks behind it.
fn long_texts(alloc: Global) -> Result<bool, OutOfMemory> {
    let bytes = List::from_slice(alloc, b"Zwei Pfund Bergkaese      ")?;
    let filled = Text::filled(alloc, "Zwei Pfund Bergkaese", 6)?;
    Ok(Text::from_bytes(alloc, bytes)? == Some(filled))
}

fn names(alloc: Global) -> Result<bool, OutOfMemory> {
    match Name::new(alloc, "Total_Ü") {
        Ok(name) => Ok(name.as_str() == "total_Ü" && name.copy(alloc)? == name),
        Err(Stop::Refused(_)) => Ok(false),
        Err(Stop::OutOfMemory) => Err(OutOfMemory),
    }
}

fn all_hold(alloc: Global) -> Result<bool, OutOfMemory> {
    Ok(
        lists(alloc)?
            && texts(alloc)?
            && long_texts(alloc)?
            && names(alloc)?
            && small_tree(alloc)? == small_tree(alloc)?,
    )
}

#[test]
fn each_call_succeeds_once(rt: HostRuntime) {
    assert!(&rt; all_hold(rt.alloc()) == Ok(true));
}

// Lists, texts and names go from thread to thread.
fn may_be_shared<T: Send + Sync>(_shared: &T) {}

#[test]
fn threads_may_share(rt: HostRuntime) {
    may_be_shared(&List::<u64>::new(rt.alloc()));
    may_be_shared(&Text::of(rt.alloc(), "").ok());
}
