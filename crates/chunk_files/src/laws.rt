// What the definitions of chunk files give.
ghost use Rattle.std.specs.Prelude.{◌≡◌, ◌<◌, ◌^◌, ◌∷◌, ◌++◌, [], ℕ, None, Some, List, All, IfOk, IfErr, drop, length, map, replicate, take};
ghost use Rattle.std.specs.List.{range_with_len};
ghost use Rattle.chunk_files.specs.Grammar.{IsChunkFile, IsFirstFault, IsRead, chunk_fault, marked};
ghost use Rattle.chunk_files.specs.Written.{one_empty_chunk};
ghost use Rattle.chunk_files.specs.declared.fault.ChunkFault.{ChunkFault};
ghost use Rattle.chunk_files.specs.declared.fault.ChunkFault.TheVariants as fault;
ghost use Rattle.wc_chunk.specs.declared.chunk.Chunk.{Chunk};

use crate::{ChunkFault, Stop, read_chunks, write_chunks};
use std::alloc::Global;
use wc_chunk::Chunk;

/// Bytes are the file of one list of chunks, or they have one first fault, and never both.
pub fn bytes_have_one_reading()
    ensures chunks { (bytes : List ℕ) (one other : List Chunk) → IsChunkFile one bytes
        → IsChunkFile other bytes → one ≡ other }
    ensures fault { (bytes : List ℕ) (one other : ChunkFault) → IsFirstFault bytes one
        → IsFirstFault bytes other → one ≡ other }
    ensures apart { (bytes : List ℕ) (chunks : List Chunk) (e : ChunkFault)
        → IsChunkFile chunks bytes → IsFirstFault bytes e → ⊥ }
    ensures some { (bytes : List ℕ) → IsRead bytes }
{}

/// What is written for chunks is read again as the same chunks.
pub fn written_chunks_are_read(
    alloc: Global,
    chunks: &[Chunk],
) -> Result<Vec<Chunk>, Stop<ChunkFault>>
    requires { All (λ c. length c.bytes < 2 ^ 32) chunks.now }
    ensures chunks { IfOk result (λ v. v.items ≡ chunks.now) }
    ensures fault { IfErr result (λ e. e ≡ Stop.NoMemory) }
{
    let bytes = write_chunks(alloc, chunks)?;
    read_chunks(alloc, &bytes)
}

/// Where the file of one empty chunk is cut: in its mark, after it, in each of the chunk's fields, and nowhere.
pub fn cut_files_are_short()
    ensures marks { map (λ n. marked (take n one_empty_chunk)) (range_with_len 0 4)
        ≡ range_with_len 0 4 }
    ensures chunks { map (λ n. chunk_fault 4 (drop 4 (take n one_empty_chunk))) (range_with_len 4 23)
        ≡ (None ∷ replicate 8 (Some (fault.Short 5))) ++ ((Some (fault.Short 13) ∷ replicate 8 (Some (fault.Short 14)))
        ++ (replicate 4 (Some (fault.Short 22)) ++ None ∷ [])) }
{}
