//! Structs as Apache Thrift's own library writes and reads them. Printed by bench/vectors/compact_vectors.py, which says how.

/// The bytes of a struct, how many values it is, how many levels it has, and its tree as text.
pub(crate) type Row = (&'static [u8], u64, u32, &'static [u8]);

const TABLE_0: [Row; 21] = [
    (b"\x00", 1, 1, b"{}"),
    (b"\x12\x00", 2, 1, b"{1=false}"),
    (b"\x11\x00", 2, 1, b"{1=true}"),
    (b"\x13\x00\x00", 2, 1, b"{1=0b}"),
    (b"\x13\x01\x00", 2, 1, b"{1=1b}"),
    (b"\x13\xff\x00", 2, 1, b"{1=-1b}"),
    (b"\x13\x7f\x00", 2, 1, b"{1=127b}"),
    (b"\x13\x80\x00", 2, 1, b"{1=-128b}"),
    (b"\x14\x00\x00", 2, 1, b"{1=0s}"),
    (b"\x14\x84\x04\x00", 2, 1, b"{1=258s}"),
    (b"\x14\x03\x00", 2, 1, b"{1=-2s}"),
    (b"\x14\xfe\xff\x03\x00", 2, 1, b"{1=32767s}"),
    (b"\x14\xff\xff\x03\x00", 2, 1, b"{1=-32768s}"),
    (b"\x15\x00\x00", 2, 1, b"{1=0i}"),
    (b"\x15\x88\x8c\x90\x10\x00", 2, 1, b"{1=16909060i}"),
    (b"\x15\x05\x00", 2, 1, b"{1=-3i}"),
    (b"\x15\xfe\xff\xff\xff\x0f\x00", 2, 1, b"{1=2147483647i}"),
    (b"\x15\xff\xff\xff\xff\x0f\x00", 2, 1, b"{1=-2147483648i}"),
    (b"\x16\x00\x00", 2, 1, b"{1=0l}"),
    (
        b"\x16\x90\x9c\xb0\xd0\x80\xc1\x81\x82\x02\x00",
        2,
        1,
        b"{1=72623859790382856l}",
    ),
    (b"\x16\x07\x00", 2, 1, b"{1=-4l}"),
];

fn table_0() -> &'static [Row] {
    &TABLE_0
}

const TABLE_1: [Row; 21] = [
    (
        b"\x16\xfe\xff\xff\xff\xff\xff\xff\xff\xff\x01\x00",
        2,
        1,
        b"{1=9223372036854775807l}",
    ),
    (
        b"\x16\xff\xff\xff\xff\xff\xff\xff\xff\xff\x01\x00",
        2,
        1,
        b"{1=-9223372036854775808l}",
    ),
    (
        b"\x17\x00\x00\x00\x00\x00\x00\x00\x00\x00",
        2,
        1,
        b"{1=d0000000000000000}",
    ),
    (
        b"\x17\x00\x00\x00\x00\x00\x00\x00\x80\x00",
        2,
        1,
        b"{1=d8000000000000000}",
    ),
    (
        b"\x17\x00\x00\x00\x00\x00\x00\xf8?\x00",
        2,
        1,
        b"{1=d3ff8000000000000}",
    ),
    (
        b"\x17\x00\x00\x00\x00\x00\x00\x00\xc0\x00",
        2,
        1,
        b"{1=dc000000000000000}",
    ),
    (
        b"\x17\x01\x00\x00\x00\x00\x00\x00\x00\x00",
        2,
        1,
        b"{1=d0000000000000001}",
    ),
    (
        b"\x17\xff\xff\xff\xff\xff\xff\xef\x7f\x00",
        2,
        1,
        b"{1=d7fefffffffffffff}",
    ),
    (
        b"\x17\x00\x00\x00\x00\x00\x00\xf0\x7f\x00",
        2,
        1,
        b"{1=d7ff0000000000000}",
    ),
    (
        b"\x17\x00\x00\x00\x00\x00\x00\xf0\xff\x00",
        2,
        1,
        b"{1=dfff0000000000000}",
    ),
    (b"\x18\x00\x00", 2, 1, b"{1=\x22\x22}"),
    (b"\x18\x01a\x00", 2, 1, b"{1=\x22a\x22}"),
    (
        b"\x18\x03\x00\xff\x80\x00",
        2,
        1,
        b"{1=\x22\x5cx00\x5cxff\x5cx80\x22}",
    ),
    (
        b"\x18\x06gr\xc3\xbc\xc3\x9f\x00",
        2,
        1,
        b"{1=\x22gr\x5cxc3\x5cxbc\x5cxc3\x5cx9f\x22}",
    ),
    (
        b"\x18\x82\x01xxxxxxxxxxxxxxxxxxxxxxxxxxxxxxxxxxxxxxxxxxxxxxxxxxxxxxxxxxxxxxxxxxxxxxxxxxxxxxxxxxxxxxxxxxxxxxxxxxxxxxxxxxxxxxxxxxxxxxxxxxxxxxxxxx\x00",
        2,
        1,
        b"{1=\x22xxxxxxxxxxxxxxxxxxxxxxxxxxxxxxxxxxxxxxxxxxxxxxxxxxxxxxxxxxxxxxxxxxxxxxxxxxxxxxxxxxxxxxxxxxxxxxxxxxxxxxxxxxxxxxxxxxxxxxxxxxxxxxxxxx\x22}",
    ),
    (
        b"\x03\xff\xff\x03\x01\x03\x01\x02\x13\x03\x13\x04\x03\xfe\xff\x03\x05\x00",
        6,
        1,
        b"{-32768=1b,-1=2b,0=3b,1=4b,32767=5b}",
    ),
    (b"\x19!\x01\x02\x00", 4, 2, b"{1=list<bool>[true,false]}"),
    (b"*!\x02\x01\x00", 4, 2, b"{2=set<bool>[false,true]}"),
    (
        b";\x02\x11\x02\x01\x01\x02\x00",
        6,
        2,
        b"{3=map<bool,bool>{false=true,true=false}}",
    ),
    (
        b"K\x01\x81\x01k\x02\x00",
        4,
        2,
        b"{4=map<bytes,bool>{\x22k\x22=false}}",
    ),
    (b"\x19#\x06\xfb\x00", 4, 2, b"{1=list<i8>[6b,-5b]}"),
];

fn table_1() -> &'static [Row] {
    &TABLE_1
}

const TABLE_2: [Row; 21] = [
    (b"*#\xfb\x06\x00", 4, 2, b"{2=set<i8>[-5b,6b]}"),
    (
        b";\x021\xfb\x01\x06\x02\x00",
        6,
        2,
        b"{3=map<i8,bool>{-5b=true,6b=false}}",
    ),
    (
        b"K\x01\x83\x01k\xfb\x00",
        4,
        2,
        b"{4=map<bytes,i8>{\x22k\x22=-5b}}",
    ),
    (
        b"\x19$\xb0\x09\xe7\x07\x00",
        4,
        2,
        b"{1=list<i16>[600s,-500s]}",
    ),
    (b"*$\xe7\x07\xb0\x09\x00", 4, 2, b"{2=set<i16>[-500s,600s]}"),
    (
        b";\x02A\xe7\x07\x01\xb0\x09\x02\x00",
        6,
        2,
        b"{3=map<i16,bool>{-500s=true,600s=false}}",
    ),
    (
        b"K\x01\x84\x01k\xe7\x07\x00",
        4,
        2,
        b"{4=map<bytes,i16>{\x22k\x22=-500s}}",
    ),
    (
        b"\x19%\xc0\xa9\x07\x9f\x8d\x06\x00",
        4,
        2,
        b"{1=list<i32>[60000i,-50000i]}",
    ),
    (
        b"*%\x9f\x8d\x06\xc0\xa9\x07\x00",
        4,
        2,
        b"{2=set<i32>[-50000i,60000i]}",
    ),
    (
        b";\x02Q\x9f\x8d\x06\x01\xc0\xa9\x07\x02\x00",
        6,
        2,
        b"{3=map<i32,bool>{-50000i=true,60000i=false}}",
    ),
    (
        b"K\x01\x85\x01k\x9f\x8d\x06\x00",
        4,
        2,
        b"{4=map<bytes,i32>{\x22k\x22=-50000i}}",
    ),
    (
        b"\x19&\x80\xf0\x85\xda,\xff\xc7\xaf\xa0%\x00",
        4,
        2,
        b"{1=list<i64>[6000000000l,-5000000000l]}",
    ),
    (
        b"*&\xff\xc7\xaf\xa0%\x80\xf0\x85\xda,\x00",
        4,
        2,
        b"{2=set<i64>[-5000000000l,6000000000l]}",
    ),
    (
        b";\x02a\xff\xc7\xaf\xa0%\x01\x80\xf0\x85\xda,\x02\x00",
        6,
        2,
        b"{3=map<i64,bool>{-5000000000l=true,6000000000l=false}}",
    ),
    (
        b"K\x01\x86\x01k\xff\xc7\xaf\xa0%\x00",
        4,
        2,
        b"{4=map<bytes,i64>{\x22k\x22=-5000000000l}}",
    ),
    (
        b"\x19'\x00\x00\x00\x00\x00\x00\xf0?\x00\x00\x00\x00\x00\x00\xd0?\x00",
        4,
        2,
        b"{1=list<double>[d3ff0000000000000,d3fd0000000000000]}",
    ),
    (
        b"*'\x00\x00\x00\x00\x00\x00\xd0?\x00\x00\x00\x00\x00\x00\xf0?\x00",
        4,
        2,
        b"{2=set<double>[d3fd0000000000000,d3ff0000000000000]}",
    ),
    (
        b";\x02q\x00\x00\x00\x00\x00\x00\xd0?\x01\x00\x00\x00\x00\x00\x00\xf0?\x02\x00",
        6,
        2,
        b"{3=map<double,bool>{d3fd0000000000000=true,d3ff0000000000000=false}}",
    ),
    (
        b"K\x01\x87\x01k\x00\x00\x00\x00\x00\x00\xd0?\x00",
        4,
        2,
        b"{4=map<bytes,double>{\x22k\x22=d3fd0000000000000}}",
    ),
    (
        b"\x19(\x01b\x02ab\x00",
        4,
        2,
        b"{1=list<bytes>[\x22b\x22,\x22ab\x22]}",
    ),
    (
        b"*(\x02ab\x01b\x00",
        4,
        2,
        b"{2=set<bytes>[\x22ab\x22,\x22b\x22]}",
    ),
];

fn table_2() -> &'static [Row] {
    &TABLE_2
}

const TABLE_3: [Row; 21] = [
    (
        b";\x02\x81\x02ab\x01\x01b\x02\x00",
        6,
        2,
        b"{3=map<bytes,bool>{\x22ab\x22=true,\x22b\x22=false}}",
    ),
    (
        b"K\x01\x88\x01k\x02ab\x00",
        4,
        2,
        b"{4=map<bytes,bytes>{\x22k\x22=\x22ab\x22}}",
    ),
    (
        b"\x19,\x13\x02\x11\x00\x13\x01\x00\x00",
        7,
        3,
        b"{1=list<struct>[{1=2b,2=true},{1=1b}]}",
    ),
    (
        b"*,\x13\x01\x00\x13\x02\x11\x00\x00",
        7,
        3,
        b"{2=set<struct>[{1=1b},{1=2b,2=true}]}",
    ),
    (
        b";\x02\xc1\x13\x01\x00\x01\x13\x02\x11\x00\x02\x00",
        9,
        3,
        b"{3=map<struct,bool>{{1=1b}=true,{1=2b,2=true}=false}}",
    ),
    (
        b"K\x01\x8c\x01k\x13\x01\x00\x00",
        5,
        3,
        b"{4=map<bytes,struct>{\x22k\x22={1=1b}}}",
    ),
    (
        b"\x19+\x018\x02\x00\x018\x01\x03one\x00",
        8,
        3,
        b"{1=list<map>[map<i8,bytes>{2b=\x22\x22},map<i8,bytes>{1b=\x22one\x22}]}",
    ),
    (
        b"*+\x018\x01\x03one\x018\x02\x00\x00",
        8,
        3,
        b"{2=set<map>[map<i8,bytes>{1b=\x22one\x22},map<i8,bytes>{2b=\x22\x22}]}",
    ),
    (
        b";\x02\xb1\x018\x01\x03one\x01\x018\x02\x00\x02\x00",
        10,
        3,
        b"{3=map<map,bool>{map<i8,bytes>{1b=\x22one\x22}=true,map<i8,bytes>{2b=\x22\x22}=false}}",
    ),
    (
        b"K\x01\x8b\x01k\x018\x01\x03one\x00",
        6,
        3,
        b"{4=map<bytes,map>{\x22k\x22=map<i8,bytes>{1b=\x22one\x22}}}",
    ),
    (
        b"\x19*$\x06\x08\x14\x06\x00",
        7,
        3,
        b"{1=list<set>[set<i16>[3s,4s],set<i16>[3s]]}",
    ),
    (
        b"**\x14\x06$\x06\x08\x00",
        7,
        3,
        b"{2=set<set>[set<i16>[3s],set<i16>[3s,4s]]}",
    ),
    (
        b";\x02\xa1\x14\x06\x01$\x06\x08\x02\x00",
        9,
        3,
        b"{3=map<set,bool>{set<i16>[3s]=true,set<i16>[3s,4s]=false}}",
    ),
    (
        b"K\x01\x8a\x01k\x14\x06\x00",
        5,
        3,
        b"{4=map<bytes,set>{\x22k\x22=set<i16>[3s]}}",
    ),
    (
        b"\x19)%\x12\x10\x15\x12\x00",
        7,
        3,
        b"{1=list<list>[list<i32>[9i,8i],list<i32>[9i]]}",
    ),
    (
        b"*)\x15\x12%\x12\x10\x00",
        7,
        3,
        b"{2=set<list>[list<i32>[9i],list<i32>[9i,8i]]}",
    ),
    (
        b";\x02\x91\x15\x12\x01%\x12\x10\x02\x00",
        9,
        3,
        b"{3=map<list,bool>{list<i32>[9i]=true,list<i32>[9i,8i]=false}}",
    ),
    (
        b"K\x01\x89\x01k\x15\x12\x00",
        5,
        3,
        b"{4=map<bytes,list>{\x22k\x22=list<i32>[9i]}}",
    ),
    (b"\x19\x01\x00", 2, 2, b"{1=list<bool>[]}"),
    (b"\x1a\x01\x00", 2, 2, b"{1=set<bool>[]}"),
    (b"\x1b\x00\x00", 2, 2, b"{1=map<bool,bool>{}}"),
];

fn table_3() -> &'static [Row] {
    &TABLE_3
}

const TABLE_4: [Row; 21] = [
    (
        b"Y,|\x13\x01\x00\x00|\x13\x01\x00\x00\x00",
        8,
        4,
        b"{5=list<struct>[{7={1=1b}},{7={1=1b}}]}",
    ),
    (
        b"Y,{\x018\x01\x03one\x00{\x018\x01\x03one\x00\x00",
        10,
        4,
        b"{5=list<struct>[{7=map<i8,bytes>{1b=\x22one\x22}},{7=map<i8,bytes>{1b=\x22one\x22}}]}",
    ),
    (
        b"Y,z\x14\x06\x00z\x14\x06\x00\x00",
        8,
        4,
        b"{5=list<struct>[{7=set<i16>[3s]},{7=set<i16>[3s]}]}",
    ),
    (
        b"Y,y\x15\x12\x00y\x15\x12\x00\x00",
        8,
        4,
        b"{5=list<struct>[{7=list<i32>[9i]},{7=list<i32>[9i]}]}",
    ),
    (
        b"Y+\x01\xcc\x13\x01\x00\x13\x01\x00\x01\xcc\x13\x01\x00\x13\x01\x00\x00",
        12,
        4,
        b"{5=list<map>[map<struct,struct>{{1=1b}={1=1b}},map<struct,struct>{{1=1b}={1=1b}}]}",
    ),
    (
        b"Y+\x01\xbb\x018\x01\x03one\x018\x01\x03one\x01\xbb\x018\x01\x03one\x018\x01\x03one\x00",
        16,
        4,
        b"{5=list<map>[map<map,map>{map<i8,bytes>{1b=\x22one\x22}=map<i8,bytes>{1b=\x22one\x22}},map<map,map>{map<i8,bytes>{1b=\x22one\x22}=map<i8,bytes>{1b=\x22one\x22}}]}",
    ),
    (
        b"Y+\x01\xaa\x14\x06\x14\x06\x01\xaa\x14\x06\x14\x06\x00",
        12,
        4,
        b"{5=list<map>[map<set,set>{set<i16>[3s]=set<i16>[3s]},map<set,set>{set<i16>[3s]=set<i16>[3s]}]}",
    ),
    (
        b"Y+\x01\x99\x15\x12\x15\x12\x01\x99\x15\x12\x15\x12\x00",
        12,
        4,
        b"{5=list<map>[map<list,list>{list<i32>[9i]=list<i32>[9i]},map<list,list>{list<i32>[9i]=list<i32>[9i]}]}",
    ),
    (
        b"Y*\x1c\x13\x01\x00\x1c\x13\x01\x00\x00",
        8,
        4,
        b"{5=list<set>[set<struct>[{1=1b}],set<struct>[{1=1b}]]}",
    ),
    (
        b"Y*\x1b\x018\x01\x03one\x1b\x018\x01\x03one\x00",
        10,
        4,
        b"{5=list<set>[set<map>[map<i8,bytes>{1b=\x22one\x22}],set<map>[map<i8,bytes>{1b=\x22one\x22}]]}",
    ),
    (
        b"Y*\x1a\x14\x06\x1a\x14\x06\x00",
        8,
        4,
        b"{5=list<set>[set<set>[set<i16>[3s]],set<set>[set<i16>[3s]]]}",
    ),
    (
        b"Y*\x19\x15\x12\x19\x15\x12\x00",
        8,
        4,
        b"{5=list<set>[set<list>[list<i32>[9i]],set<list>[list<i32>[9i]]]}",
    ),
    (
        b"Y),\x13\x01\x00\x13\x01\x00,\x13\x01\x00\x13\x01\x00\x00",
        12,
        4,
        b"{5=list<list>[list<struct>[{1=1b},{1=1b}],list<struct>[{1=1b},{1=1b}]]}",
    ),
    (
        b"Y)+\x018\x01\x03one\x018\x01\x03one+\x018\x01\x03one\x018\x01\x03one\x00",
        16,
        4,
        b"{5=list<list>[list<map>[map<i8,bytes>{1b=\x22one\x22},map<i8,bytes>{1b=\x22one\x22}],list<map>[map<i8,bytes>{1b=\x22one\x22},map<i8,bytes>{1b=\x22one\x22}]]}",
    ),
    (
        b"Y)*\x14\x06\x14\x06*\x14\x06\x14\x06\x00",
        12,
        4,
        b"{5=list<list>[list<set>[set<i16>[3s],set<i16>[3s]],list<set>[set<i16>[3s],set<i16>[3s]]]}",
    ),
    (
        b"Y))\x15\x12\x15\x12)\x15\x12\x15\x12\x00",
        12,
        4,
        b"{5=list<list>[list<list>[list<i32>[9i],list<i32>[9i]],list<list>[list<i32>[9i],list<i32>[9i]]]}",
    ),
    (
        b"\x11\x13\x06\x14\xb0\x09\x15\xc0\xa9\x07\x16\x80\xf0\x85\xda,\x17\x00\x00\x00\x00\x00\x00\xf0?\x18\x01b\x1c\x13\x02\x11\x00\x1b\x018\x02\x00\x1a$\x06\x08\x19%\x12\x10\x00",
        20,
        2,
        b"{1=true,2=6b,3=600s,4=60000i,5=6000000000l,6=d3ff0000000000000,7=\x22b\x22,8={1=2b,2=true},9=map<i8,bytes>{2b=\x22\x22},10=set<i16>[3s,4s],11=list<i32>[9i,8i]}",
    ),
    (
        b"\xf3\x01\xf3\x02\x03\x5c\x03\xf1\x02\x9a\x01\x04\xe0\xff\x03\x08\xf4\x0a\x00",
        8,
        1,
        b"{15=1b,30=2b,46=3b,61=true,77=false,32752=4s,32767=5s}",
    ),
    (
        b"\x19\xe3\x00\x01\x02\x03\x04\x05\x06\x07\x08\x09\x0a\x0b\x0c\x0d\x00",
        16,
        2,
        b"{1=list<i8>[0b,1b,2b,3b,4b,5b,6b,7b,8b,9b,10b,11b,12b,13b]}",
    ),
    (
        b"\x19\xf3\x0f\x00\x01\x02\x03\x04\x05\x06\x07\x08\x09\x0a\x0b\x0c\x0d\x0e\x1a\xf4\xc8\x01\x00\x02\x04\x06\x08\x0a\x0c\x0e\x10\x12\x14\x16\x18\x1a\x1c\x1e \x22$&(*,.02468:<>@BDFHJLNPRTVXZ\x5c^`bdfhjlnprtvxz|~\x80\x01\x82\x01\x84\x01\x86\x01\x88\x01\x8a\x01\x8c\x01\x8e\x01\x90\x01\x92\x01\x94\x01\x96\x01\x98\x01\x9a\x01\x9c\x01\x9e\x01\xa0\x01\xa2\x01\xa4\x01\xa6\x01\xa8\x01\xaa\x01\xac\x01\xae\x01\xb0\x01\xb2\x01\xb4\x01\xb6\x01\xb8\x01\xba\x01\xbc\x01\xbe\x01\xc0\x01\xc2\x01\xc4\x01\xc6\x01\xc8\x01\xca\x01\xcc\x01\xce\x01\xd0\x01\xd2\x01\xd4\x01\xd6\x01\xd8\x01\xda\x01\xdc\x01\xde\x01\xe0\x01\xe2\x01\xe4\x01\xe6\x01\xe8\x01\xea\x01\xec\x01\xee\x01\xf0\x01\xf2\x01\xf4\x01\xf6\x01\xf8\x01\xfa\x01\xfc\x01\xfe\x01\x80\x02\x82\x02\x84\x02\x86\x02\x88\x02\x8a\x02\x8c\x02\x8e\x02\x90\x02\x92\x02\x94\x02\x96\x02\x98\x02\x9a\x02\x9c\x02\x9e\x02\xa0\x02\xa2\x02\xa4\x02\xa6\x02\xa8\x02\xaa\x02\xac\x02\xae\x02\xb0\x02\xb2\x02\xb4\x02\xb6\x02\xb8\x02\xba\x02\xbc\x02\xbe\x02\xc0\x02\xc2\x02\xc4\x02\xc6\x02\xc8\x02\xca\x02\xcc\x02\xce\x02\xd0\x02\xd2\x02\xd4\x02\xd6\x02\xd8\x02\xda\x02\xdc\x02\xde\x02\xe0\x02\xe2\x02\xe4\x02\xe6\x02\xe8\x02\xea\x02\xec\x02\xee\x02\xf0\x02\xf2\x02\xf4\x02\xf6\x02\xf8\x02\xfa\x02\xfc\x02\xfe\x02\x80\x03\x82\x03\x84\x03\x86\x03\x88\x03\x8a\x03\x8c\x03\x8e\x03\x00",
        218,
        2,
        b"{1=list<i8>[0b,1b,2b,3b,4b,5b,6b,7b,8b,9b,10b,11b,12b,13b,14b],2=set<i16>[0s,1s,2s,3s,4s,5s,6s,7s,8s,9s,10s,11s,12s,13s,14s,15s,16s,17s,18s,19s,20s,21s,22s,23s,24s,25s,26s,27s,28s,29s,30s,31s,32s,33s,34s,35s,36s,37s,38s,39s,40s,41s,42s,43s,44s,45s,46s,47s,48s,49s,50s,51s,52s,53s,54s,55s,56s,57s,58s,59s,60s,61s,62s,63s,64s,65s,66s,67s,68s,69s,70s,71s,72s,73s,74s,75s,76s,77s,78s,79s,80s,81s,82s,83s,84s,85s,86s,87s,88s,89s,90s,91s,92s,93s,94s,95s,96s,97s,98s,99s,100s,101s,102s,103s,104s,105s,106s,107s,108s,109s,110s,111s,112s,113s,114s,115s,116s,117s,118s,119s,120s,121s,122s,123s,124s,125s,126s,127s,128s,129s,130s,131s,132s,133s,134s,135s,136s,137s,138s,139s,140s,141s,142s,143s,144s,145s,146s,147s,148s,149s,150s,151s,152s,153s,154s,155s,156s,157s,158s,159s,160s,161s,162s,163s,164s,165s,166s,167s,168s,169s,170s,171s,172s,173s,174s,175s,176s,177s,178s,179s,180s,181s,182s,183s,184s,185s,186s,187s,188s,189s,190s,191s,192s,193s,194s,195s,196s,197s,198s,199s]}",
    ),
    (
        b"\x1b\x80\x01Q\x00\x01\x02\x02\x04\x02\x06\x01\x08\x02\x0a\x02\x0c\x01\x0e\x02\x10\x02\x12\x01\x14\x02\x16\x02\x18\x01\x1a\x02\x1c\x02\x1e\x01 \x02\x22\x02$\x01&\x02(\x02*\x01,\x02.\x020\x012\x024\x026\x018\x02:\x02<\x01>\x02@\x02B\x01D\x02F\x02H\x01J\x02L\x02N\x01P\x02R\x02T\x01V\x02X\x02Z\x01\x5c\x02^\x02`\x01b\x02d\x02f\x01h\x02j\x02l\x01n\x02p\x02r\x01t\x02v\x02x\x01z\x02|\x02~\x01\x80\x01\x02\x82\x01\x02\x84\x01\x01\x86\x01\x02\x88\x01\x02\x8a\x01\x01\x8c\x01\x02\x8e\x01\x02\x90\x01\x01\x92\x01\x02\x94\x01\x02\x96\x01\x01\x98\x01\x02\x9a\x01\x02\x9c\x01\x01\x9e\x01\x02\xa0\x01\x02\xa2\x01\x01\xa4\x01\x02\xa6\x01\x02\xa8\x01\x01\xaa\x01\x02\xac\x01\x02\xae\x01\x01\xb0\x01\x02\xb2\x01\x02\xb4\x01\x01\xb6\x01\x02\xb8\x01\x02\xba\x01\x01\xbc\x01\x02\xbe\x01\x02\xc0\x01\x01\xc2\x01\x02\xc4\x01\x02\xc6\x01\x01\xc8\x01\x02\xca\x01\x02\xcc\x01\x01\xce\x01\x02\xd0\x01\x02\xd2\x01\x01\xd4\x01\x02\xd6\x01\x02\xd8\x01\x01\xda\x01\x02\xdc\x01\x02\xde\x01\x01\xe0\x01\x02\xe2\x01\x02\xe4\x01\x01\xe6\x01\x02\xe8\x01\x02\xea\x01\x01\xec\x01\x02\xee\x01\x02\xf0\x01\x01\xf2\x01\x02\xf4\x01\x02\xf6\x01\x01\xf8\x01\x02\xfa\x01\x02\xfc\x01\x01\xfe\x01\x02\x00",
        258,
        2,
        b"{1=map<i32,bool>{0i=true,1i=false,2i=false,3i=true,4i=false,5i=false,6i=true,7i=false,8i=false,9i=true,10i=false,11i=false,12i=true,13i=false,14i=false,15i=true,16i=false,17i=false,18i=true,19i=false,20i=false,21i=true,22i=false,23i=false,24i=true,25i=false,26i=false,27i=true,28i=false,29i=false,30i=true,31i=false,32i=false,33i=true,34i=false,35i=false,36i=true,37i=false,38i=false,39i=true,40i=false,41i=false,42i=true,43i=false,44i=false,45i=true,46i=false,47i=false,48i=true,49i=false,50i=false,51i=true,52i=false,53i=false,54i=true,55i=false,56i=false,57i=true,58i=false,59i=false,60i=true,61i=false,62i=false,63i=true,64i=false,65i=false,66i=true,67i=false,68i=false,69i=true,70i=false,71i=false,72i=true,73i=false,74i=false,75i=true,76i=false,77i=false,78i=true,79i=false,80i=false,81i=true,82i=false,83i=false,84i=true,85i=false,86i=false,87i=true,88i=false,89i=false,90i=true,91i=false,92i=false,93i=true,94i=false,95i=false,96i=true,97i=false,98i=false,99i=true,100i=false,101i=false,102i=true,103i=false,104i=false,105i=true,106i=false,107i=false,108i=true,109i=false,110i=false,111i=true,112i=false,113i=false,114i=true,115i=false,116i=false,117i=true,118i=false,119i=false,120i=true,121i=false,122i=false,123i=true,124i=false,125i=false,126i=true,127i=false}}",
    ),
];

fn table_4() -> &'static [Row] {
    &TABLE_4
}

const TABLE_5: [Row; 1] = [(
    b"\x9c<&~6\x80\x01\x00\x16\x81\x01\x00\x15\xfe\x7f\x15\x80\x80\x01\x00",
    8,
    3,
    b"{9={3={2=63l,5=64l},4=-65l},10=8191i,11=8192i}",
)];

fn table_5() -> &'static [Row] {
    &TABLE_5
}

/// All the structs, in several tables.
pub(crate) fn tables() -> [&'static [Row]; 6] {
    [
        table_0(),
        table_1(),
        table_2(),
        table_3(),
        table_4(),
        table_5(),
    ]
}

/// Structs that are read otherwise here, by own choice: the bytes, the tree as Apache's library reads it, and as it is
/// read here. An empty container keeps the tag bool.
pub(crate) const DIFFERENCES: [(&[u8], &[u8], &[u8]); 3] = [
    (b"\x19\x05\x00", b"{1=list<i32>[]}", b"{1=list<bool>[]}"),
    (b"*\x08\x00", b"{2=set<bytes>[]}", b"{2=set<bool>[]}"),
    (
        b"\x19\x19\x07\x00",
        b"{1=list<list>[list<double>[]]}",
        b"{1=list<list>[list<bool>[]]}",
    ),
];
