//! A day file of more than 65,536 bytes: twelve stations over 48 intervals, each settled, and then each reading corrected.
use super::printed;
use std::alloc::{AllocError, Global};
use std::test::Fail;

const OPENING: &[u8] = b"register 1 10000 40000 10000
register 1 10500 55000 0
register 2 8000 30000 25000
register 3 12500 80000 7500
register 3 9750 25000 12345
register 3 9200 61000 30000
register 4 11111 47000 1
register 5 10250 90000 5000
register 6 8640 33000 60000
register 7 9999 72000 9000
register 7 10321 58000 15000
register 9 12001 29000 2000
open -1000 10000
";

// The lines of a sheet: `@` stands for its interval, and `%` for the last digit of that.
const SHEET: &[u8] = b"lodge 1 @ 2000 2500 3200:4000 -250:3000 5150:6000 3200:2500 7400:0 1875:5000
lodge 2 @ 900 1100 5150:6000 3200:2500 7400:0 1875:5000 6020:4200 -900:2000 4000:7000
lodge 3 @ 1500 700 1875:5000 6020:4200 -900:2000 4000:7000 4444:3300
lodge 4 @ 4000 3500 -250:3000 5150:6000 3200:2500 7400:0 1875:5000 6020:4200 -900:2000 4000:7000
lodge 5 @ 600 650 4000:7000 4444:3300 9999:1700 2650:6100 5150:2900
lodge 6 @ 3000 2000 9999:1700 2650:6100 5150:2900 -75:3600 4000:1500 3555:8000
lodge 7 @ 1200 1300 5150:2900 -75:3600 4000:1500
lodge 8 @ 5000 4000 3200:2500 7400:0 1875:5000 6020:4200 -900:2000 4000:7000 4444:3300 9999:1700
lodge 9 @ 800 900 3555:8000 8120:5400
lodge 10 @ 2500 1800 -75:3600 4000:1500 3555:8000 8120:5400 2050:3900 6300:4700 120:5500
lodge 11 @ 1000 1700 -900:2000 4000:7000 4444:3300 9999:1700 2650:6100 5150:2900 -75:3600
lodge 12 @ 300 400 2050:3900 6300:4700 120:5500
start 1 @ 10%00
reading 1 @ 4%0000
start 2 @ 20000
reading 2 @ 5%1500
start 3 @ 15000
reading 3 @ 12%000
start 4 @ 0
reading 4 @ 6%0000
start 5 @ 12000
reading 5 @ 4%7000
start 6 @ 3%000
reading 6 @ 7%0000
start 7 @ 8000
reading 7 @ 54%000
start 8 @ 25000
reading 8 @ 6%4321
start 9 @ 20%50
reading 9 @ 58%050
start 10 @ 11000
reading 10 @ 5%1000
start 11 @ 17000
reading 11 @ 4%7770
start 12 @ 9000
reading 12 @ 3%3999
position 1 @ 1%000 2%0000
position 2 @ -35000 410000
position 3 @ 60%00 0
position 4 @ 0 77%000
position 5 @ 12%000 33%000
position 6 @ -8%000 1%0500
position 7 @ 45250 640000
position 8 @ 15%00 505%00
position 9 @ -5000 90000
position 10 @ 0 17%000
position 11 @ 0 0
demand @ 1%8000
close @
settle @
";

// Behind all sheets, and for each: its readings corrected.
const CORRECTIONS: &[u8] = b"adjust 1 @ 4%1000
adjust 2 @ 5%0500
adjust 3 @ 25%000
adjust 4 @ 5%9000
adjust 5 @ 4%7007
adjust 6 @ 7%2000
adjust 7 @ 49%000
adjust 8 @ 6%1234
adjust 9 @ 62%000
adjust 10 @ 5%0000
adjust 11 @ 4%8880
adjust 12 @ 33%000
";

// The last lines that a model of the rules, apart from this program, gives for the file.
const TAIL: &[u8] = b"2988: posts=8
2989: posts=10
account=0 balance=-8966050
account=1 balance=2430626
account=2 balance=-688827
account=3 balance=6083966
account=4 balance=-935246
account=5 balance=668271
account=6 balance=1900757
account=7 balance=926152
account=8 balance=-1851474
account=9 balance=1054534
account=10 balance=-622709
account=11 balance=0
sum=0
calls=2989 taken=2989 refused=0
";

// The lines as they stand for an interval.
fn push_lines(
    heap: Global,
    file: &mut Vec<u8>,
    lines: &[u8],
    interval: u32,
) -> Result<(), AllocError> {
    let number = format!(in heap; "{interval}")?;
    for byte in lines {
        match *byte {
            b'@' => file.extend_from_slice(number.as_bytes())?,
            b'%' => file.push(b'0' + (interval % 10) as u8)?,
            byte => file.push(byte)?,
        }
    }
    Ok(())
}

fn push_intervals(heap: Global, file: &mut Vec<u8>, lines: &[u8]) -> Result<(), AllocError> {
    for interval in 1..=48u32 {
        push_lines(heap, file, lines, interval)?;
    }
    Ok(())
}

fn long_file(heap: Global) -> Result<Vec<u8>, AllocError> {
    let mut file = OPENING.to_vec(heap)?;
    push_intervals(heap, &mut file, SHEET)?;
    push_intervals(heap, &mut file, CORRECTIONS)?;
    Ok(file)
}

#[test]
fn a_whole_day(rt: HostRuntime) -> Result<(), Fail> {
    let file = long_file(rt.alloc())?;
    assert!(rt; file.len() == 90_462);
    let text = printed(rt.alloc(), file.as_slice())?.unwrap_or(Vec::new(rt.alloc()));
    assert!(rt; text.iter().filter(|byte| **byte == b'\n').count() == 3_003);
    assert!(rt; text.as_slice().ends_with(TAIL));
    Ok(())
}
