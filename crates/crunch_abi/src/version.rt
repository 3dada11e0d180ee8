// The version of the exports: by it a host sees whether an archive is the one that it was written for.
ghost use Rattle.std.specs.Prelude.{◌≡◌};
ghost use Rattle.crunch_abi.specs.Version.{abi_version};

// Raised whenever a struct or an argument of an export changes. CRUNCH_ABI_VERSION of crunch.h is the same number.
const ABI_VERSION: u32 = 1;

// The version that this archive has.
pub fn crunch_abi_version() -> u32
    ensures { result ≡ abi_version }
{
    ABI_VERSION
}
