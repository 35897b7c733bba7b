// Lines, and what the definitions say of them: they are computed when the crate is proved.
ghost use Rattle.srecord.specs.Examples.{RecordExamples};

// The definitions take `S105FFFE80007D`, and refuse the same with the checksum `7E`.
pub fn record_examples_hold()
    ensures { RecordExamples }
{}
