// What a request names, and the token that it has.
ghost use Rattle.std.specs.Prelude.{◌≡◌};
ghost use Rattle.std.specs.Option.{option_copied};
ghost use Rattle.dkv_route.specs.Targets.{from_path, named, path_named, path_of, after_bearer};

/// The paths that are served.
#[derive(Clone, Copy, Debug, PartialEq, Eq)]
pub(crate) enum Path {
    /// `/`, for an exchange.
    Root,
    /// `/kv/snapshot_read`
    Read,
    /// `/kv/atomic_write`
    Write,
    /// `/kv/watch`
    Watch,
    /// `/own/stop`
    Stop,
}

// What a target in absolute form begins with, in any case.
const SCHEME: &[u8] = b"http://";

// What stands before the token of an authorization.
const BEARER: &[u8] = b"Bearer ";

// From the first slash or question mark on, and a slash where there is neither.
fn from_path(bytes: &[u8]) -> &[u8]
    ensures { result.now ≡ from_path bytes.now }
{
    let mut rest = bytes;
    while let [first, after @ ..] = rest {
        if *first == b'/' || *first == b'?' {
            return rest;
        }
        rest = after;
    }
    b"/"
}

fn named(target: &[u8]) -> &[u8]
    ensures { result.now ≡ named target.now }
{
    if target.len() >= 7 && target[..7].eq_ignore_ascii_case(SCHEME) {
        from_path(&target[7..])
    } else {
        target
    }
}

fn path_named(name: &[u8]) -> Option<Path>
    ensures { result ≡ path_named name.now }
{
    if name == b"/".as_slice() {
        Some(Path::Root)
    } else if name == b"/kv/snapshot_read".as_slice() {
        Some(Path::Read)
    } else if name == b"/kv/atomic_write".as_slice() {
        Some(Path::Write)
    } else if name == b"/kv/watch".as_slice() {
        Some(Path::Watch)
    } else if name == b"/own/stop".as_slice() {
        Some(Path::Stop)
    } else {
        None
    }
}

/// The path that a target names, if it is one that is served.
pub(crate) fn path_of(target: &[u8]) -> Option<Path>
    ensures { result ≡ path_of target.now }
{
    path_named(named(target))
}

/// The token in the value of an authorization field.
pub(crate) fn after_bearer(value: &[u8]) -> Option<&[u8]>
    ensures { option_copied result ≡ after_bearer value.now }
{
    if value.starts_with(BEARER) {
        Some(&value[7..])
    } else {
        None
    }
}
