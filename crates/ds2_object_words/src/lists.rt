//! Lists, and what may be there.
ghost use Rattle.std.specs.Prelude.{◌≡◌, ◌^◌, ◌&&◌, ◌++◌, IsTrue, OnOk, nat_lt, length, true};
ghost use Rattle.std.specs.List.{list_all, flat_map};
ghost use Rattle.std.specs.Option.{option_map_or};
ghost use Rattle.ds2_object_words.specs.Parts.{ReadsPart, Writes, items_read, list_part, option_part, ItemsWritten};
ghost use Rattle.ds2_code.specs.ValidCode.{is_short};

use crate::unread::bad;
use crate::{Flaw, Spelled, Unread};
use ds2_base::{Bytes, List, OutOfMemory, Stop};
use std::alloc::Global;

// So many items. Their number alone makes no room for them.
fn read_items<T: Spelled>(
    alloc: Global,
    count: u32,
    bytes: &mut Unread<'_>,
) -> Result<List<T>, Stop<Flaw>>
    ensures { ReadsPart result (items_read T.part count bytes.old) bytes.new }
{
    let mut items = List::new(alloc);
    'items: for i in 0..count {
        let item = T::read(alloc, bytes)?;
        items.push(item)?;
    }
    Ok(items)
}

// Puts the spellings of items behind the bytes.
#[tactic(auto, using(crate::proofs::ListSteps::first_ruled, crate::proofs::ListSteps::one_written, crate::proofs::ListSteps::all_written))]
fn write_items<T: Spelled>(items: &[T], out: &mut Bytes) -> Result<(), OutOfMemory>
    requires { IsTrue (list_all T.rules items.now) }
    ensures { OnOk result (ItemsWritten T.part out.old items.now out.new) }
{
    let mut rest = items;
    'items: while let [first, after @ ..] = rest {
        first.write(out)?;
        rest = after;
    }
    Ok(())
}

// A count, and the spellings of items.
fn write_list<T: Spelled>(items: &[T], out: &mut Bytes) -> Result<(), OutOfMemory>
    requires { IsTrue (is_short items.now && list_all T.rules items.now) }
    ensures { OnOk result (Writes (list_part T.part) out.old items.now out.new) }
{
    (items.len() as u32).write(out)?;
    write_items(items, out)?;
    Ok(())
}

impl<T: Spelled> Spelled for List<T> {
    ghost part = { list_part T.part };

    ghost rules = { λ items. is_short items && list_all T.rules items };

    fn read(alloc: Global, bytes: &mut Unread<'_>) -> Result<List<T>, Stop<Flaw>> {
        let count = bytes.number32()?;
        read_items(alloc, count, bytes)
    }

    fn write(&self, out: &mut Bytes) -> Result<(), OutOfMemory> {
        write_list(self.as_slice(), out)?;
        Ok(())
    }
}

impl<T: Spelled> Spelled for Option<T> {
    ghost part = { option_part T.part };

    ghost rules = { λ item. option_map_or T.rules item true };

    fn read(alloc: Global, bytes: &mut Unread<'_>) -> Result<Option<T>, Stop<Flaw>> {
        let left = bytes.left();
        match bytes.byte()? {
            0 => Ok(None),
            1 => Ok(Some(T::read(alloc, bytes)?)),
            2.. => Err(bad(left)),
        }
    }

    fn write(&self, out: &mut Bytes) -> Result<(), OutOfMemory> {
        match self {
            None => {
                out.push(0)?;
                Ok(())
            }
            Some(item) => {
                out.push(1)?;
                item.write(out)?;
                Ok(())
            }
        }
    }
}
