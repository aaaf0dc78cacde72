//! Names: of collections, columns, sources, components, ports, outputs and streams.
ghost use Rattle.std.specs.Prelude.{◌≡◌};
ghost use Rattle.std.specs.List.{list_all};
ghost use Rattle.blz_value.specs.Name as spec;

fn is_name_start(byte: u8) -> bool
    ensures { result ≡ spec.is_name_start byte }
{
    matches!(byte, b'a'..=b'z' | b'A'..=b'Z' | b'_')
}

fn is_name_byte(byte: u8) -> bool
    ensures { result ≡ spec.is_name_byte byte }
{
    is_name_start(byte) || matches!(byte, b'0'..=b'9')
}

fn starts_name(text: &[u8]) -> bool
    ensures { result ≡ spec.starts_name text.now }
{
    match text {
        [] => false,
        [first, ..] => is_name_start(*first),
    }
}

fn has_name_bytes(text: &[u8]) -> bool
    ensures { result ≡ list_all spec.is_name_byte text.now }
{
    text.iter().all(|byte| is_name_byte(*byte))
}

/// Whether a text is a name: a letter or `_`, then letters, digits and `_`, at most 64 bytes in all.
pub fn is_name(text: &str) -> bool
    ensures { result ≡ spec.is_name text.now }
{
    starts_name(text.as_bytes()) && text.len() <= 64 && has_name_bytes(text.as_bytes())
}
