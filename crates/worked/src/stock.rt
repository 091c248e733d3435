//! The rows of the two books.

use book::Book;
use cells::{Cell, Prefix};
use semantics::Refusal;
use tariffs::{THREE_TARIFFS, store};

/// Stores an exchange into table 2.
fn exchange(book: &mut Book<'_>, left: u32, right: u32, digits: &[u8]) -> Result<(), Refusal> {
    let prefix = Prefix::from_bytes(digits)?;
    let row = [
        Cell::Number(left),
        Cell::Number(right),
        Cell::Prefix(prefix),
    ];
    book.store(2, &row)
}

/// Stores an offer to a customer into table 3: two prefixes and three numbers.
fn offer(
    book: &mut Book<'_>,
    customer: u32,
    from: &[u8],
    to: &[u8],
    numbers: [u32; 3],
) -> Result<(), Refusal> {
    let from = Prefix::from_bytes(from)?;
    let to = Prefix::from_bytes(to)?;
    let [first, second, third] = numbers;
    let row = [
        Cell::Number(customer),
        Cell::Prefix(from),
        Cell::Prefix(to),
        Cell::Number(first),
        Cell::Number(second),
        Cell::Number(third),
    ];
    book.store(3, &row)
}

/// Tariffs, some of them twice or with the prefix or the numbers of another.
const REPEATS: [(&str, u32, u32); 6] = [
    ("47", 1, 3100),
    ("47", 1, 3100),
    ("4711", 2, 2750),
    ("", 0, 0),
    ("48", 1, 2900),
    ("4711", 1, 2900),
];

/// Stores tariffs into a table.
fn store_all(
    book: &mut Book<'_>,
    table: usize,
    tariffs: &[(&str, u32, u32)],
) -> Result<(), Refusal> {
    for (digits, carrier, price) in tariffs {
        store(book, table, digits.as_bytes(), *carrier, *price)?;
    }
    Ok(())
}

/// The rows of table 2. Their prefixes are different and have eight digits each.
fn exchanges(book: &mut Book<'_>) -> Result<(), Refusal> {
    for (left, right, digits) in [
        (1, 1, "47110000"),
        (1, 2, "47110001"),
        (2, 1, "47120000"),
        (0, 0, "00000000"),
        (4294967295, 0, "48000000"),
        (2, 2, "99999999"),
        (7, 1, "48000001"),
        (1, 7, "04711000"),
    ] {
        exchange(book, left, right, digits.as_bytes())?;
    }
    Ok(())
}

/// The rows of table 3.
fn offers(book: &mut Book<'_>) -> Result<(), Refusal> {
    for (customer, from, to, numbers) in [
        (10, "47", "4711", [1, 2, 1]),
        (10, "4711", "47", [2, 1, 2]),
        (11, "47", "47", [1, 1, 1]),
        (12, "48", "47", [7, 1, 7]),
        (12, "", "48", [1, 7, 1]),
        (13, "47", "4711", [2, 2, 2]),
        (14, "4711", "4711", [1, 2, 1]),
        (11, "48", "4711", [7, 7, 7]),
    ] {
        offer(book, customer, from.as_bytes(), to.as_bytes(), numbers)?;
    }
    Ok(())
}

/// Fills the short book: three to eight rows in each table.
pub(crate) fn short(book: &mut Book<'_>) -> Result<(), Refusal> {
    store_all(book, 0, &THREE_TARIFFS)?;
    store_all(book, 1, &REPEATS)?;
    exchanges(book)?;
    offers(book)
}

/// The last decimal digit of a number, as its character.
fn last_digit(number: u32) -> u8 {
    b'0' + u8::try_from(number % 10).unwrap()
}

/// Fills the tall book: no row in table 0, one in table 1, and 256 rows in tables 2 and 3.
pub(crate) fn tall(book: &mut Book<'_>) -> Result<(), Refusal> {
    store(book, 1, b"4711", 5, 6)?;
    for row in 0..256 {
        // three digits of the row number, leading zeros too
        let hundreds = last_digit(row / 100);
        let tens = last_digit(row / 10);
        let ones = last_digit(row);
        exchange(book, row % 16, row / 16, &[hundreds, tens, ones])?;
        offer(
            book,
            10 + row % 5,
            &[tens, ones],
            &[ones],
            [row % 7, row, row / 2],
        )?;
    }
    Ok(())
}
