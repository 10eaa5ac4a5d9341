//! Seeds of keys. The function does nothing, and its contract is what the check computes.
ghost use Rattle.std.specs.Prelude.{◌≡◌, codes};
ghost use Rattle.std.specs.Hash.DefaultHasher as sip;
ghost use Rattle.key_hashes.specs.Hashes.{no_keys, with_key};

/// What Rust's own hasher gives, SipHash-1-3 with zeros for its key, of each key's length in eight bytes and its bytes: of no key, of
/// the key `a`, of `ab` and `c`, and of `a` and `bc`.
pub fn seeds()
    ensures none { sip.finish (no_keys).keys ≡ 15130871412783076140 }
    ensures one { sip.finish (with_key no_keys (codes "a")).keys ≡ 13743199064115861684 }
    ensures two { sip.finish (with_key (with_key no_keys (codes "ab")) (codes "c")).keys ≡ 1085249655374079794 }
    ensures others { sip.finish (with_key (with_key no_keys (codes "a")) (codes "bc")).keys ≡ 18139956459179832509 }
{}
