//! Laws of requests.

ghost use Rattle.std.specs.Prelude.{◌≡◌, List};
ghost use Rattle.m11_base.specs.Devices.{Bytes};
ghost use Rattle.m11_base_files.specs.declared.memory_files.MemoryFile.{MemoryFile};
ghost use Rattle.m11_web.specs.Requests.{IsRequest, parts};

/// A request has one reading: the same words, the same paths and bytes of files, and the same input.
pub fn a_request_has_one_reading()
    ensures { (words words' : List Bytes) → (files files' : List MemoryFile) → (input input' request : Bytes)
        → IsRequest words files input request → IsRequest words' files' input' request
        → (words ≡ words') × (parts files ≡ parts files') × (input ≡ input') }
{}
