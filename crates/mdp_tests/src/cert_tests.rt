use mdp_cert::{Cert, read_cert, write_cert, write_old};
use std::alloc::Global;

/// A certificate in version 2, and the same in version 1.
const REACH: &str =
    "mdp-certificate 2\nclaim min reach \"is done\"\nstates 3\ninit -\nstate 0 0 0 1\nrun 1 2 0 0 0\nend\n";

const OLD_REACH: &str =
    "mdp-certificate 1\nclaim min reach \"is done\"\nstates 3\ninit -\nstate 0 0 0 1\nstate 1 0 0 0\nstate 2 0 0 0\nend\n";

/// Another in both.
const MEAN: &str =
    "mdp-certificate 2\nclaim min mean \"-\"\nstates 2\ninit 0 1/2\nspread 0\nrun 0 1 1/2 0 0 0\nend\n";

const OLD_MEAN: &str =
    "mdp-certificate 1\nclaim min mean \"-\"\nstates 2\ninit 0 1/2\nspread 0\nstate 0 1/2 0 0 0\nstate 1 1/2 0 0 0\nend\n";

/// Whether a certificate is written in version 2 as this text.
fn is_written(alloc: Global, cert: &Cert, text: &str) -> bool {
    let mut written = Vec::new(alloc);
    write_cert(cert, &mut written).is_ok() && written.as_slice() == text.as_bytes()
}

/// Whether a certificate is written in version 1 as this text.
fn is_written_old(alloc: Global, cert: &Cert, text: &str) -> bool {
    let mut written = Vec::new(alloc);
    write_old(cert, &mut written).is_ok() && written.as_slice() == text.as_bytes()
}

/// Whether the certificate of a text is written in both versions as these.
fn is_read(alloc: Global, text: &str, new: &str, old: &str) -> bool {
    let Ok(cert) = read_cert(alloc, text.as_bytes()) else {
        return false;
    };
    is_written(alloc, &cert, new) && is_written_old(alloc, &cert, old)
}

#[test]
fn reads_and_writes_both_versions(rt: HostRuntime) {
    let alloc = rt.alloc();
    assert!(rt; is_read(alloc, REACH, REACH, OLD_REACH));
    assert!(rt; is_read(alloc, OLD_REACH, REACH, OLD_REACH));
    assert!(rt; is_read(alloc, MEAN, MEAN, OLD_MEAN));
    assert!(rt; is_read(alloc, OLD_MEAN, MEAN, OLD_MEAN));
}
