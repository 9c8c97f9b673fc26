//! The help texts of `oramdisk`.

pub(crate) const VERSION: &str = "0.1.0";

pub(crate) const PROGRAM: &str =
    "A disk on a rented machine. The owner of that machine learns neither what is in the disk nor which of its blocks are used.

The rented machine runs 'oramdisk host', which keeps the disk's buckets. Your own machine runs 'oramdisk serve', which clients of NBD connect to.";

pub(crate) const PROGRAM_MORE: &str = "A first disk, in the order of the commands:
  yours:   oramdisk new mydisk --size 1GiB        and copy mydisk/host.toml to the rented machine
  rented:  oramdisk host --new host.toml
  yours:   ssh -N -o StreamLocalBindUnlink=yes -L mydisk/buckets.sock:/home/you/buckets.sock you@rented
  yours:   oramdisk format mydisk/disk.toml
  yours:   oramdisk serve mydisk/disk.toml
  yours:   sudo nbd-client -unix mydisk/disk.sock /dev/nbd0

'oramdisk help COMMAND' explains each command, and 'oramdisk help new' each setting. docs/disk.md describes the settings.";

pub(crate) const NEW: &str =
    "Makes a folder with the settings of a new disk and of its host, and a fresh key";

pub(crate) const NEW_MORE: &str =
    "The folder then holds disk.toml, with the disk's key, and host.toml, which is for the rented machine. Comments in both explain the settings.
A size is a number and a unit: KiB, MiB, GiB and TiB, or kB, MB, GB and TB. The greatest is 256GiB.

disk.toml has to set size, key and host. It may set more; the defaults are:
  block = 4096               the bytes of a block
  slots = 4                  how many blocks a bucket has room for
  leaf_load = 5              for how many blocks there is a leaf, which takes two buckets at the host; with fewer than 4 slots it is 1
  table = size / block       the most entries of the table that the client keeps; with one for each block the disk has one tree
  sealer = \"chacha\"          how buckets are sealed; \"plain\" hides nothing, and is only for trying things out
  near = size / 32           the most bytes of the tree's top levels that the client itself keeps; the default is at most 64 MiB
  listen = \"unix:disk.sock\"  where the disk is served: a socket in its folder, for you alone; or \"127.0.0.1:PORT\", for all users
  state = \"disk.state\"       the file of the disk's state, in its folder
  sync = true                each state is synced before it counts
  reconnect_timeout = 600    for how many seconds the client waits for a host that doesn't answer

Example:
  oramdisk new mydisk --size 1GiB";

pub(crate) const HOST: &str =
    "Keeps the buckets of a disk in a file, at the rented machine, until it is ended";

pub(crate) const HOST_MORE: &str =
    "The settings say where it listens and which file it keeps the buckets in; 'oramdisk new' writes them as host.toml.
The first time say --new, which makes the file. Without it the file has to be there.

Examples:
  oramdisk host --new host.toml
  oramdisk host host.toml";

pub(crate) const FORMAT: &str =
    "Makes an empty disk, tells its host of it, and reports its progress";

pub(crate) const FORMAT_MORE: &str =
    "The host has to be running and reached at the address that the settings name. Each setting is described in the disk.toml
that 'oramdisk new' writes. If it was broken off, say it once more: it goes on, as long as the disk wasn't used.

Example:
  oramdisk format mydisk/disk.toml";

pub(crate) const SERVE: &str = "Serves the disk to clients of NBD, until it is ended";

pub(crate) const SERVE_MORE: &str =
    "The disk has to be formatted, and its host reached at the address that the settings name. Each setting is described in
the disk.toml that 'oramdisk new' writes.

Example:
  oramdisk serve mydisk/disk.toml
  sudo nbd-client -unix mydisk/disk.sock /dev/nbd0
or any other client of NBD: nbdinfo, nbdcopy, qemu-img, fio
  nbdinfo 'nbd+unix:///?socket=mydisk/disk.sock'";

pub(crate) const STATUS: &str =
    "Shows the disk's status: its size, its accesses, what waits, and why it failed";

pub(crate) const STATUS_MORE: &str =
    "It asks no host, and may be used while the disk is served. Each setting is described in the disk.toml that
'oramdisk new' writes.

Example:
  oramdisk status mydisk/disk.toml
  oramdisk status --json mydisk/disk.toml    for a program that watches over it: it ends with 17 if the disk has failed, and with
                                             28 if it isn't formatted yet or its state is missing";

pub(crate) const RETRY: &str =
    "Lets a failed disk be served again, from the state that was kept last";

pub(crate) const RETRY_MORE: &str =
    "'oramdisk status' says why the disk failed. Use this once its own host is reached again, with its own file. Each setting
is described in the disk.toml that 'oramdisk new' writes.

Example:
  oramdisk retry mydisk/disk.toml";

pub(crate) const CHECK: &str =
    "Reads all records of the disk at its host, and says whether each is the one that was stored";

pub(crate) const CHECK_MORE: &str =
    "Nobody else may use the disk meanwhile, so end 'oramdisk serve' first. It changes nothing. It ends with 0 if everything is there,
and with 31 if something is changed or missing; then it says which trees and levels that is in. A disk that has failed can be
checked too. With --salvage it also says how much of the disk 'oramdisk export --salvage' would write.

Example:
  oramdisk check mydisk/disk.toml";

pub(crate) const EXPORT: &str = "Writes all that is in the disk to an image, as a backup";

pub(crate) const EXPORT_MORE: &str =
    "Nobody else may use the disk meanwhile, so end 'oramdisk serve' first. It changes nothing. The image has the bytes of the whole
disk, and takes no room for zeros. It isn't encrypted: keep it where only you can read it. IMAGE is a new file, or '-' for
standard output. A record that isn't what was stored ends it with 31, and leaves no image; with --salvage the image has zeros in
place of what is lost. A disk that has failed can be exported too.

Examples:
  oramdisk export mydisk/disk.toml backup.img
  oramdisk export mydisk/disk.toml - | zstd -o backup.img.zst
To have it as a disk again: make a new one that is as large, serve it, and then
  nbdcopy --destination-is-zero backup.img 'nbd+unix:///?socket=newdisk/disk.sock'";

/// The descriptions of the words that subcommands take.
pub(crate) const DISK_SETTINGS: &str = "The disk's settings file, such as mydisk/disk.toml";

pub(crate) const HOST_SETTINGS: &str = "The host's settings file, such as host.toml";

pub(crate) const NEW_FILE: &str = "Makes the file of buckets, and refuses if it is there";

pub(crate) const JSON: &str = "Prints one line of JSON";

pub(crate) const IMAGE: &str = "The image, which is a new file, or '-' for standard output";

pub(crate) const SALVAGE: &str = "Goes on with the rest if something is lost at the host";

pub(crate) const FOLDER: &str = "The folder to make";

pub(crate) const SIZE: &str = "How much the disk holds, such as 512MiB or 1GiB";

/// The message for words that ask for nothing though clap accepts them.
pub(crate) const NO_REQUEST: &str =
    "these words ask for nothing\n\nFor more information, try '--help'.";
