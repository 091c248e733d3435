//! Replies as a person reads them.

use crate::read::{Record, Records, Row, Standing};
use anyhow::{bail, ensure};

/// A row of a reply as a line of the table, after the word for how it stands in the answer.
fn line(rt: &HostRuntime, standing: Standing, row: Row<'_>) -> anyhow::Result<()> {
    print!(rt; "  {standing:<8}")?;
    for cell in row {
        print!(rt; "  {cell:>8}")?;
    }
    println!(rt; "")?;
    Ok(())
}

/// The rows of a reply below the names of their columns.
pub(crate) fn show(rt: &HostRuntime, names: &str, bytes: &[u8]) -> anyhow::Result<()> {
    let mut records = Records(bytes);
    let Some(Record::Counts(certain, possible)) = records.next() else {
        bail!("the reply does not begin with its counts");
    };
    println!(rt; "  {certain} certain, {possible} possible")?;
    println!(rt; "          {names}")?;
    let count = usize::from(certain) + usize::from(possible);
    ensure!(
        records.count() == count,
        "the reply does not have the rows that it counts"
    );
    for record in records {
        match record {
            Record::Row(standing, row) => line(rt, standing, row)?,
            Record::Counts(..) => bail!("the reply counts its rows twice"),
        }
    }
    println!(rt; "")?;
    Ok(())
}
