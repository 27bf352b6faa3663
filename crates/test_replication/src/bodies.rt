//! Bodies of entries behind their lengths.

/// The first body, and the bytes behind it.
pub(crate) fn framed(bytes: &[u8]) -> Option<(&[u8], &[u8])> {
    if bytes.len() < 4 {
        return None;
    }
    let (head, rest) = bytes.split_at(4);
    let length = u32::from_be_bytes([head[0], head[1], head[2], head[3]]) as usize;
    if rest.len() < length {
        return None;
    }
    Some(rest.split_at(length))
}
