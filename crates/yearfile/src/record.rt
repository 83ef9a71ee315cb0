// A record of a year file: its part of the file, and its place in the file, counted from 0 through points, elements and
// uses. (A struct for these two would only be taken apart again where a record is read.)
#[derive(Drop)]
pub enum Record<'a> {
    Point { bytes: &'a [u8; 15], place: u16 },
    Element { bytes: &'a [u8; 9], place: u16 },
    Use { bytes: &'a [u8; 5], place: u16 },
}
