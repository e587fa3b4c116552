// From the bytes of a file to the meaning of the site that stands on the tables it was read into.
#![tactic(auto)]

ghost use Rattle.loaded_sites.specs.Loaded.{FloorsMeanTheirFiles, TapesMeanTheirFiles};

// A site made over the tables that a file was loaded into is the site that the file describes.
pub fn loaded_sites_are_what_their_files_describe()
    ensures floors { FloorsMeanTheirFiles }
    ensures tapes { TapesMeanTheirFiles }
{}
