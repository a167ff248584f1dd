//! Each call that takes memory, with ample memory.
use ds2_base::{Bytes, List, OutOfMemory, Stop};
use ds2_csv::{TableWriter, read_table, write_rows, write_table};
use std::alloc::Global;

// A table of all four types with a quote and nulls, as it is written.
const WRITTEN: &[u8] =
    b"a bigint,\"b decimal(3,1)\",c char(2),d varchar(3)\n1,-0.5,x ,\"y\"\"z\"\n,,\\N,\\N\n";

// The same table as a file whose header does not tell each type.
const PLAIN: &[u8] =
    b"a,\" B Decimal(3,1) \",c char(2),d\r\n1,-0.5,\"x\",\"y\"\"z\"\n\\N,,\\N,\\N\n";

fn copied(alloc: Global, file: &[u8]) -> Result<Bytes, OutOfMemory> {
    let bytes = List::from_slice(alloc, file)?;
    match read_table(alloc, &bytes) {
        Ok(table) => write_table(alloc, &table),
        Err(Stop::Refused(_)) => List::from_slice(alloc, b"refused"),
        Err(Stop::OutOfMemory) => Err(OutOfMemory),
    }
}

// The table of a file, written as its rows come.
fn written_by_rows(alloc: Global, file: &[u8]) -> Result<Bytes, OutOfMemory> {
    let bytes = List::from_slice(alloc, file)?;
    let Ok(table) = read_table(alloc, &bytes) else {
        return Err(OutOfMemory);
    };
    let columns = table.schema().columns().as_slice();
    let mut writer = TableWriter::new(alloc, columns)?;
    for number in 0..table.len() {
        let row = table.row(alloc, number)?;
        writer = writer.with_row(alloc, columns, row.as_slice())?;
    }
    writer.into_bytes()
}

#[test]
fn a_table_is_read_and_written(rt: HostRuntime) {
    let alloc = rt.alloc();
    for file in [WRITTEN, PLAIN] {
        let copy = copied(alloc, file);
        assert!(&rt; copy.is_ok_and(|bytes| bytes.as_slice() == WRITTEN));
    }
    let copy = written_by_rows(alloc, WRITTEN);
    assert!(&rt; copy.is_ok_and(|bytes| bytes.as_slice() == WRITTEN));
    let none = write_rows(alloc, &[], &[]);
    assert!(&rt; none.is_ok_and(|bytes| bytes.as_slice() == b"\"\"\n".as_slice()));
}
